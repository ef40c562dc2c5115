// The calls' answers as bytes.
ghost use Rattle.std.specs.Prelude.{◌≡◌, [], ◌∷◌, ◌++◌, ◌≤◌};
ghost use Rattle.linear.specs.Limits.{places};
ghost use Rattle.affine.specs.Answers.{of_affine};
ghost use Rattle.roots.specs.Limits.{most_roots};
ghost use Rattle.roots.specs.Answers.{of_roots};
ghost use Rattle.frames.specs.Text.{element_bytes, up_to};
ghost use Rattle.frames.specs.Answer.{root_bytes, direction_bytes, roots_bytes, affine_bytes, found_byte, FewRoots};

use crate::inner::kind::Kind;
use crate::inner::text::AnswerBytes;
use affine::RootSpace;
use field::Refusal;
use linear::inner::elimination::PLACES;
use roots::RootsAnswer;
use roots::limits::MOST_ROOTS;

// Solved: the count, and each root with its multiplicity.
fn solved(count: u32, roots: [u32; MOST_ROOTS], multiplicities: [u32; MOST_ROOTS]) -> AnswerBytes
    requires { count ≤ most_roots }
    ensures { result ≡ 1 ∷ 0 ∷ count ∷ up_to (root_bytes roots multiplicities) count }
{
    let mut bytes = AnswerBytes::begun(Kind::DegreeUpTo4.byte(), 0);
    bytes.push(count);
    let n = count as usize;
    for (root, multiplicity) in roots[..n].iter().zip(&multiplicities[..n]) {
        bytes.push_element(*root);
        bytes.push(*multiplicity);
    }
    bytes
}

// Found or not, k, the base and the directions: the bytes of an answer to the affine kind. (`found` is a byte of it; 0 stands for each
// number where there is no root.)
fn space(found: bool, k: u32, base: u32, directions: [u32; PLACES]) -> AnswerBytes
    requires { k ≤ places }
    ensures { result ≡ 2 ∷ 0 ∷ found_byte found ∷ k ∷ element_bytes base ++ up_to (direction_bytes directions) k }
{
    let mut bytes = AnswerBytes::begun(Kind::Affine.byte(), 0);
    bytes.push(u32::from(found));
    bytes.push(k);
    bytes.push_element(base);
    for direction in &directions[..k as usize] {
        bytes.push_element(*direction);
    }
    bytes
}

pub fn roots_answer(answer: RootsAnswer) -> AnswerBytes
    requires { FewRoots (of_roots answer).says }
    ensures { result ≡ roots_bytes (of_roots answer) }
{
    match answer.count {
        Ok(n) => solved(n, answer.roots, answer.multiplicities),
        Err(refusal) => AnswerBytes::begun(Kind::DegreeUpTo4.byte(), refusal.number()),
    }
}

pub fn affine_answer(answer: Result<Option<RootSpace>, Refusal>) -> AnswerBytes
    ensures { result ≡ affine_bytes (of_affine answer) }
{
    match answer {
        Ok(Some(roots)) => space(true, roots.dimension, roots.base.0, roots.directions),
        Ok(None) => space(false, 0, 0, [0; PLACES]),
        Err(refusal) => AnswerBytes::begun(Kind::Affine.byte(), refusal.number()),
    }
}
