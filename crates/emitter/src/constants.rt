// "the symbol moves of the constants into the last word's entries, in symbol order".
ghost use Rattle.std.specs.Prelude.{◌≡◌, ◌<◌};
ghost use Rattle.words.specs.Limits.{constants_most};
ghost use Rattle.automaton.specs.Transition.{transitions_words};
ghost use Rattle.automaton.specs.Numbering.{full_entries, constant_transitions};
ghost use Rattle.ports.specs.Ports.{exit_range, port_in};
ghost use Rattle.emitter.specs.Writing.{Written};
ghost use Rattle.emitter.specs.Emission.{ConstantsEmittable};

use super::writer::Writer;
use ports::port::{code_of, entry_state, exit_of};
use ports::states::{Entries, Port};

// Into an entry for each constant.
fn push_every(constants: &[u32], writer: &mut Writer, exit: u32)
    requires constants_emittable { ConstantsEmittable constants.now writer.old.at }
    requires lt_exit_range { exit < exit_range }
    ensures same_slice { writer.new.out.ghost_name ≡ writer.old.out.ghost_name }
    ensures written { Written constants_most
        (transitions_words (constant_transitions (full_entries constants.now exit)))
        writer.old writer.new }
{
    for (k, &c) in constants.iter().enumerate() {
        let entry = entry_state(exit, k);
        writer.push_transition(c, entry);
    }
}

// Into the entries of a port.
pub fn push_constants(constants: &[u32], port: Port, writer: &mut Writer)
    requires { ConstantsEmittable constants.now writer.old.at }
    ensures same_slice { writer.new.out.ghost_name ≡ writer.old.out.ghost_name }
    ensures written { Written constants_most
        (transitions_words (constant_transitions (port_in constants.now port).entries))
        writer.old writer.new }
{
    let exit = exit_of(port);
    match code_of(port) {
        Entries::Every => push_every(constants, writer, exit),
        Entries::Single(c) => writer.push_transition(u32::from(c), exit),
        Entries::Missing => {}
    }
}
