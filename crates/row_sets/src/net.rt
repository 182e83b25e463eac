//! Net writes.

ghost use Rattle.std.specs.Prelude.{◌≡◌, [], ◌+◌, ◌++◌, ◌<◌, ◌≤◌, length};
ghost use Rattle.std.specs.Vec.{vec_len, vec_capacity};
ghost use Rattle.rel_base.specs.NetWrites.{write_before};
ghost use Rattle.row_sets.specs.Overlay.{in_table, net_writes};

use crate::table_writes::OwnWrite;
use rel_base::{Key, Write};
use std::collections::BTreeMap;

/// Puts the write of a key at the end of others, which have room for it, where the key has a row before or after.
fn push_write(writes: &mut Vec<Write>, table: u32, key: Key, own: OwnWrite)
    requires { vec_len writes.old < vec_capacity writes.old }
    ensures writes { writes.new.items ≡ writes.old.items ++ write_before (table, key) own.before own.after [] }
    ensures len { vec_len writes.new ≤ vec_len writes.old + 1 }
    ensures room { vec_capacity writes.new ≡ vec_capacity writes.old }
{
    if own.before.is_none() && own.after.is_none() {
        return;
    }
    let OwnWrite { before, after } = own;
    writes.push_reserved(Write {
        table,
        key,
        before,
        after,
    });
}

/// Puts the net writes of a few own writes of a table at the end of others, which have room for them.
pub fn push_few(few: Vec<(Key, OwnWrite)>, table: u32, writes: &mut Vec<Write>)
    requires { vec_len writes.old + length few.items ≤ vec_capacity writes.old }
    ensures writes { writes.new.items ≡ writes.old.items ++ net_writes (in_table table few.items) }
    ensures len { vec_len writes.new ≤ vec_len writes.old + length few.items }
    ensures room { vec_capacity writes.new ≡ vec_capacity writes.old }
{
    for (key, own) in few {
        push_write(writes, table, key, own);
    }
}

/// Puts the net writes of a table at the end of others, which have room for them, in the order of their keys.
pub fn push_each(own: BTreeMap<Key, OwnWrite>, table: u32, writes: &mut Vec<Write>)
    requires { vec_len writes.old + length own.entries ≤ vec_capacity writes.old }
    ensures writes { writes.new.items ≡ writes.old.items ++ net_writes (in_table table own.entries) }
    ensures len { vec_len writes.new ≤ vec_len writes.old + length own.entries }
    ensures room { vec_capacity writes.new ≡ vec_capacity writes.old }
{
    for (key, write) in own {
        push_write(writes, table, key, write);
    }
}
