// A word's port, and its entry for one constant.
ghost use Rattle.std.specs.Prelude.{◌≡◌, ◌≤◌, ◌<◌, length, get_or};
ghost use Rattle.words.specs.Limits.{constants_most};
ghost use Rattle.ports.specs.Ports.{exit_range, exit_in, code_in, entry_state, EachOnce, EntryRead};

use super::states::{Entries, Port};

// The port with this exit and these entries.
pub fn port_of(exit: u32, entries: Entries) -> Port
    requires { exit < exit_range }
    ensures { (exit_in result ≡ exit) × (code_in result ≡ entries) }
{
    Port {
        exit: exit as u16,
        entries,
    }
}

// The exit of a port.
pub fn exit_of(port: Port) -> u32
    ensures { (result ≡ exit_in port) × (result < exit_range) }
{
    u32::from(port.exit)
}

// Which entries a port has.
pub fn code_of(port: Port) -> Entries
    ensures { result ≡ code_in port }
{
    port.entries
}

// Where a word with this exit has an entry for each constant: the state of the one for the constant with index k.
pub fn entry_state(exit: u32, k: usize) -> u32
    requires { (exit < exit_range) × (k < constants_most) }
    ensures { result ≡ entry_state exit k }
{
    exit + 1 + k as u32
}

// The entry for the constant with index k.
pub fn entry_at(constants: &[u32], port: Port, k: usize) -> Option<u32>
    requires { EachOnce constants.now × ((k < length constants.now) × (length constants.now ≤ constants_most)) }
    ensures { EntryRead constants.now port (get_or constants.now k 0) result }
{
    let exit = exit_of(port);
    match code_of(port) {
        Entries::Every => Some(entry_state(exit, k)),
        Entries::Single(c) if u32::from(c) == constants[k] => Some(exit),
        _ => None,
    }
}
