// Each call once, with ample memory.
ghost use Rattle.std.specs.Prelude.{◌≡◌, ◌<◌, IfOk, All, vec_len};

use crate::LockTable;
use s2_value::{Key, Memory, Seq, Value};
use std::alloc::Global;
use std::test::Fail;

fn number(alloc: Global, n: i64) -> Result<Key, Memory> {
    let mut key = Seq::new(alloc);
    key.add(Value::Int(n))?;
    Ok(key)
}

fn one_value(alloc: Global, j: u8, n: i64) -> Result<Vec<(u8, Key)>, Memory>
    requires { j < 4 }
    ensures numbers { IfOk result (λ keys. All (λ p. p.0 < 4) keys.items) }
    ensures count { IfOk result (λ keys. vec_len keys ≡ 1) }
{
    let mut keys = Vec::new(alloc);
    keys.push((j, number(alloc, n)?))?;
    Ok(keys)
}

// One actor takes two rows and a value of key 1, and gives all back.
#[test]
fn takes_and_frees(rt: HostRuntime) -> Result<(), Fail> {
    let alloc = rt.alloc();
    let seven = number(alloc, 7)?;
    let mut locks = LockTable::new(alloc);
    locks.spare(2)?;
    let keys = one_value(alloc, 1, 7)?;
    locks.take(3, &[5, 6], keys);
    assert_eq!(rt; locks.holder_of_row(5), Some(3));
    assert_eq!(rt; locks.holder_of_row(7), None);
    assert_eq!(rt; locks.holder_of_value(1, &seven), Some(3));
    assert_eq!(rt; locks.holder_of_value(0, &seven), None);
    locks.free_all(3);
    assert_eq!(rt; locks.holder_of_row(5), None);
    assert_eq!(rt; locks.holder_of_value(1, &seven), None);
    Ok(())
}
