// A word's states: its exit, and which entries it has.
ghost use Rattle.std.specs.Prelude.{◌<◌};
ghost use Rattle.words.specs.Word.{count_range};

// Which entries a word has: one for each constant, in states behind the exit; one for a single constant, the exit; or none.
#[derive(Clone, Copy)]
pub enum Entries {
    Every,
    Single(u8),
    Missing,
}

// An exit has as many bits as a state count.
#[derive(Clone, Copy)]
pub struct Port {
    pub exit: u16,
    pub entries: Entries,
    pub ghost low: { exit < count_range },
}
