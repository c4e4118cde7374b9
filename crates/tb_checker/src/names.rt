// The names of environments, and of sets of them.
ghost use Rattle.std.specs.Prelude.{◌≡◌, ◌==◌, ◌%◌, ◌^◌, ◌<◌, ◌≤◌, [], codes, length, if◌then◌else◌};
ghost use Rattle.tb_model.specs.Values.{case_of};
ghost use Rattle.tb_outside.specs.Buffers.{Gathers};
ghost use Rattle.tb_checker.specs.Texts.{name_in_set, name_of, set_name};

use tb_detail::Detail;
use tb_outside::{OutputBuffer, Sink};

/// The name of an environment.
pub fn name_at(detail: &Detail, e: u8) -> &[u8]
    requires { e < length detail.now.environments }
    ensures { result.now ≡ name_of detail.now e }
{
    detail.environments.items()[usize::from(e)].name.bytes()
}

// Whether an environment is in a set.
fn is_in(set: u8, e: u8) -> bool
    requires { e < 8 }
    ensures { result ≡ case_of set e }
{
    (set >> e) % 2 == 1
}

// What stands before the name of an environment of a set.
fn before(set: u8, e: u8) -> &'static [u8]
    requires { e < 8 }
    ensures { result.now ≡ if set % 2 ^ e == 0 then [] else codes "+" }
{
    if set % (1 << e) == 0 { b"" } else { b"+" }
}

// Puts the name of an environment, where it is in a set.
fn put_name<K: Sink>(buffer: &mut OutputBuffer, sink: &mut K, detail: &Detail, set: u8, e: u8)
    requires few { length detail.now.environments ≤ 4 }
    requires known { e < length detail.now.environments }
    ensures { Gathers K.holds K.faults sink.old sink.new buffer.old (name_in_set detail.now set e) buffer.new }
{
    if is_in(set, e) {
        buffer.put(sink, before(set, e));
        buffer.put(sink, name_at(detail, e));
    }
}

/// Puts the names of a set of environments, with a plus between them.
pub fn put_set_name<K: Sink>(buffer: &mut OutputBuffer, sink: &mut K, detail: &Detail, set: u8)
    requires few { length detail.now.environments ≤ 4 }
    ensures { Gathers K.holds K.faults sink.old sink.new buffer.old (set_name detail.now set) buffer.new }
{
    for e in 0..detail.environments.items().len() {
        put_name(buffer, sink, detail, set, e as u8);
    }
}
