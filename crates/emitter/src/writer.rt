// A writer of table words. Words past the end of the slice are left out, so that a run over an empty slice counts.
ghost use Rattle.std.specs.Prelude.{◌≡◌, [], ◌∷◌, ◌+◌, ◌*◌, ◌<◌};
ghost use Rattle.words.specs.Word.{symbol_range};
ghost use Rattle.automaton.specs.Transition.{transition_words, on_symbol, epsilon};
ghost use Rattle.ports.specs.Ports.{entry_range};
ghost use Rattle.emitter.specs.Writing.{Written, last_index};

use words::word::{EPSILON, KIND_UNIT, STATE_RANGE, TRANSITION};

// A slice, and the index of the next word. It counts on past the end of the slice, where a writer of bytes (encoding) stays.
#[derive(Drop)]
pub struct Writer<'a> {
    pub out: &'a mut [u32],
    pub at: usize,
}

impl Writer<'_> {
    // One word.
    pub fn push(&mut self, w: u32)
        requires { self.old.at < last_index }
        ensures same_slice { self.new.out.ghost_name ≡ self.old.out.ghost_name }
        ensures written { Written 1 (w ∷ []) self.old self.new }
    {
        if self.at < self.out.len() {
            self.out[self.at] = w;
        }
        self.at += 1;
    }

    // An empty move.
    pub(crate) fn push_epsilon(&mut self, from: u32, to: u32)
        requires { (self.old.at < last_index) × ((from < entry_range) × (to < entry_range)) }
        ensures same_slice { self.new.out.ghost_name ≡ self.old.out.ghost_name }
        ensures written { Written 1 (transition_words (epsilon from to)) self.old self.new }
    {
        self.push(EPSILON * KIND_UNIT + (from * STATE_RANGE + to))
    }

    // A symbol move without its part states.
    pub(crate) fn push_transition(&mut self, symbol: u32, to: u32)
        requires { (self.old.at < last_index) × ((symbol < symbol_range) × (to < entry_range)) }
        ensures same_slice { self.new.out.ghost_name ≡ self.old.out.ghost_name }
        ensures written { Written 1 (transition_words (on_symbol symbol [] to)) self.old self.new }
    {
        self.push(TRANSITION * KIND_UNIT + (symbol * STATE_RANGE + to))
    }
}
