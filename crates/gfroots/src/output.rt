// The output, collected in a buffer, which is handed on when it has no room for a further answer and after each read.
ghost use Rattle.std.specs.Prelude.{◌≡◌, ◌+◌, ◌≤◌, length};
ghost use Rattle.std.proofs.lemmas.List.Edits.{sets};
ghost use Rattle.frames.specs.Limits.{answer_room};
ghost use Rattle.gfroots.specs.Output.{output_room, next_place};

use crate::stopped::Stopped;
use frames::limits::ANSWER_ROOM;

const OUTPUT_ROOM: usize = 65536;

// The characters that wait stand first in the buffer.
#[derive(Drop)]
pub struct Output {
    waiting: usize,
    buffer: [u8; OUTPUT_ROOM],
    ghost fits: { waiting ≤ output_room },
}

impl Output {
    pub fn new() -> Self {
        Output {
            waiting: 0,
            buffer: [0; OUTPUT_ROOM],
        }
    }

    // Hands on what waits.
    pub fn hand_on(&mut self, rt: &HostRuntime) -> Result<(), Stopped>
        ensures waiting_value { self.new.waiting ≡ 0 }
        ensures buffer_kept { self.new.buffer ≡ self.old.buffer }
    {
        let waiting = self.waiting;
        self.waiting = 0;
        rt.write_all(&self.buffer[..waiting])
            .map_err(|_| Stopped::WriteFailed)
    }

    // Room for one answer more.
    fn make_room(&mut self, rt: &HostRuntime) -> Result<(), Stopped>
        ensures waiting_value { self.new.waiting ≡ next_place self.old.waiting }
        ensures answer_room_bound { self.new.waiting + answer_room ≤ output_room }
        ensures buffer_kept { self.new.buffer ≡ self.old.buffer }
    {
        if self.waiting + ANSWER_ROOM <= OUTPUT_ROOM {
            Ok(())
        } else {
            self.hand_on(rt)
        }
    }

    // An answer, added after what waits; also where what waited before could not be handed on.
    pub fn add_answer(&mut self, rt: &HostRuntime, text: &[u8]) -> Result<(), Stopped>
        requires { length text.now ≤ answer_room }
        ensures waiting_value { self.new.waiting ≡ next_place self.old.waiting + length text.now }
        ensures buffer_after { self.new.buffer ≡ sets self.old.buffer (next_place self.old.waiting) text.now }
    {
        let room = self.make_room(rt);
        let end = self.waiting + text.len();
        self.buffer[self.waiting..end].copy_from_slice(text);
        self.waiting = end;
        room
    }
}
