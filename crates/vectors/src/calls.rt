// The calls that a row can name, each with the row's numbers.
use crate::affine_calls::list;
use crate::row::Row;
use crate::said::Said;
use field::{Element, LogNumber};
use std::io;
use std::io::Write;

#[derive(Clone, Copy)]
pub enum Call {
    Accept,
    Sum,
    Product,
    Quotient,
    Power,
    Root,
    Trace,
    Number,
    Element,
    PowerOfX,
    House,
    Solve,
    Build,
    Affine,
    Place,
    List,
}

impl Call {
    // The call of this name. NUL bytes before the first letter are no part of it.
    pub fn named(word: &[u8]) -> Option<Call> {
        let start = word.iter().position(|b| *b != 0)?;
        match &word[start..] {
            b"accept" => Some(Call::Accept),
            b"sum" => Some(Call::Sum),
            b"product" => Some(Call::Product),
            b"quotient" => Some(Call::Quotient),
            b"power" => Some(Call::Power),
            b"root" => Some(Call::Root),
            b"trace" => Some(Call::Trace),
            b"number" => Some(Call::Number),
            b"element" => Some(Call::Element),
            b"xpower" => Some(Call::PowerOfX),
            b"house" => Some(Call::House),
            b"solve" => Some(Call::Solve),
            b"build" => Some(Call::Build),
            b"affine" => Some(Call::Affine),
            b"place" => Some(Call::Place),
            b"list" => Some(Call::List),
            _ => None,
        }
    }
}

// What the row's call answers. The first number is the field polynomial, or the degree for the house's; then come elements or exponents,
// or the list, before which stands the place, or how many entries are lent.
impl Said for Row {
    fn say<W: Write>(&self, out: &mut W) -> io::Result<()> {
        let p = self.number(0);
        let n = self.number(1);
        let a = Element(n);
        let b = Element(self.number(2));
        match self.call {
            Call::Accept => field::accept(p).say(out),
            Call::Sum => field::sum(p, a, b).say(out),
            Call::Product => field::product(p, a, b).say(out),
            Call::Quotient => field::quotient(p, a, b).say(out),
            Call::Power => field::power(p, a, self.exponent(2)).say(out),
            Call::Root => field::square_root(p, a).say(out),
            Call::Trace => field::trace(p, a).say(out),
            Call::Number => field::number_of_element(p, a).say(out),
            Call::Element => field::element_of_number(p, LogNumber(n)).say(out),
            Call::PowerOfX => field::power_of_x(p, self.exponent(1)).say(out),
            Call::House => field::house_polynomial(p).say(out),
            Call::Solve => roots::solve(p, self.list(1)).say(out),
            Call::Build => roots::build(p, self.list(1)).say(out),
            Call::Affine => affine::solve(p, self.list(1)).say(out),
            Call::Place => affine::root_at_place(p, self.list(2), n).say(out),
            Call::List => list(p, n, self.list(2), out),
        }
    }
}
