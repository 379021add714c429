//! Bytes that are added where there is room, and the plan of failing puts.
ghost use Rattle.std.specs.Prelude.{◌≡◌, ◌≤◌, ◌+◌, ◌++◌, length, vec_len, vec_capacity};
ghost use Rattle.rv_io.specs.MemSink.{planned};

use super::Fail;

/// Adds bytes for which there is room. Takes no memory.
pub fn append(out: &mut Vec<u8>, bytes: &[u8])
    requires { vec_len out.old + length bytes.now ≤ vec_capacity out.old }
    ensures items { out.new.items ≡ out.old.items ++ bytes.now }
    ensures len { vec_len out.new ≡ vec_len out.old + length bytes.now }
    ensures capacity { vec_capacity out.old ≤ vec_capacity out.new }
{
    let _ = out.extend_from_slice(bytes);
}

/// How many bytes the put of this number takes, if it is to fail.
#[tactic(auto, using(crate::proofs::Steps::drop_step))]
pub fn planned(failing: &[Fail], call: u64) -> Option<u32>
    ensures { result ≡ planned failing.now call }
{
    for fail in failing {
        if u64::from(fail.call) == call {
            return Some(fail.taken);
        }
    }
    None
}
