//! Texts with a mark `@` where their first fault is, or without one where they have none. `$` is the end of a line, and a backquote a tab. All lines
//! of these faults, and the kinds of those of queries, are looked at on the built program (tests/cases).

/// Applications.
pub const APPLICATIONS: &str = r##"table@
table t (i int) key (i);@;
table t (i int) key (i);$table @
table t (i int) key (i);$$  @(
table t@T (i int) key (i);
proc p() {$`@
proc p() {$`let$``@=
proc p()${$}$@x
proc p() { let a = 1;$  let @= 2;$}
proc p() { let a = "é"; @1
proc p() { # @é
# @é
#a$# b @ÿ$
@é
proc p() { if a { @
proc p() { a = @18446744073709551616; }
proc p() { a = @"a$"; }
proc p() { a = @x"0"; }
table t (i int) key (i); # ($
`$ `
"##;

/// Queries: faults of the grammar, names that name nothing, names of sources that were used before, and what has another kind than it must have, or no
/// place in groups, or no number among the items.
pub const QUERIES: &str = r#"@
@select a.nr;
@as a as a select a.nr;
from @;
from @"account" as a select a.nr;
from account @select a.nr;
from account @a select a.nr;
from account as @select a.nr;
from account as @from select a.nr;
from account as @count select count;
from @block as b select count;
from account as a @;
from account as a @, firm as f select a.nr;
from account as a @x where a.nr = 1 select a.nr;
from account as a where @select a.nr;
from account as a where a @= 1 select a.nr;
from account as a where a.@1 = 1 select a.nr;
from account as a where a.@sum = 1 select a.nr;
from account as a where a.@from = 1 select a.nr;
from account as a where a.nr =@= 1 select a.nr;
from account as a where a.nr @select a.nr;
from account as a where a.nr = @select a.nr;
from account as a where a.nr = @min select a.nr;
from account as a where a.nr = b @select a.nr;
from account as a where a.nr = -@- 1 select a.nr;
from account as a where a.nr = -@"1" select a.nr;
from account as a where a.nr = @now select a.nr;
from account as a where a.nr = @(1) select a.nr;
from account as a where a.nr = -@9223372036854775808 select a.nr;
from account as a where a.nr = @9223372036854775808 select a.nr;
from account as a where a.nr = 1 @or a.nr = 2 select a.nr;
from account as a where a.nr = 1 and @not a.nr = 2 select a.nr;
from account as a where a.nr = 1 @where a.nr = 2 select a.nr;
from account as a where @1 = a.nr select a.nr;
from account as a group @select a.nr;
from account as a group by @select a.nr;
from account as a group by a.nr, @count select count;
from account as a group by a.nr @where a.nr = 1 select count;
from account as a group by a.nr @order by 1;
from account as a @order by 1;
from account as a select @;
from account as a select @from;
from account as a select a@;
from account as a select a.@;
from account as a select a.nr@.nr;
from account as a select a.nr, @;
from account as a select a.nr @a.nr;
from account as a select count @a.nr;
from account as a select sum @;
from account as a select sum @count;
from account as a select avg@;
from account as a select a.nr @as n;
from account as a select @1;
from account as a select a.nr @= 1;
from account as a select a.nr order @1;
from account as a select a.nr order by @;
from account as a select a.nr order by @a.nr;
from account as a select a.nr order by @- 1;
from account as a select a.nr order by 1 @2;
from account as a select a.nr order by 1, @;
from account as a select a.nr@
from account as a select a.nr order by 1@
from account as a select a.nr; @;
from account as a select a.nr; @from account as a select a.nr;
from account as a select a.nr; # a comment$
from account as a select a.nr; # a comment$  @x
from account as a$  select a.nr$ @group by a.nr;
from account as a join @select a.nr;
from account as a join firm @select a.nr;
from account as a join firm as f @, firm as g select a.nr;
from account as a join firm as f select @count;
from account as a join firm as f select a.nr, @sum a.nr;
from account as a join firm as f @group by a.nr select a.nr;
from account as a join firm as f where f.name = a.owner @group by a.nr select a.nr;
from account as a join firm as f where f.name = a.owner @join firm as g select a.nr;
from account as a select a.nr@?
from account as a where a.owner = @"no end select a.nr;
from account as a where a.owner = @x"0" select a.nr;
from account as a where a.nr = 1 and a.owner = "north" and a.nr != -1 and a.block < 9 select a.nr, a.block, a.pos order by 3, 1;
from account as account where account.nr <= account.balance select account.nr;
from @accounts as a select a.nr;
from account as a join @firms as a select a.nr;
from account as a where @b.nr = 1 select a.nr;
from account as a where a.@number = 1 select a.nr;
from account as a where a.nr = @b.nr select a.nr;
from account as a where a.nr = a.@number select a.nr;
from account as a where @account.nr = 1 select a.nr;
from account as a where @b.nr = "x" select a.nr;
from account as a group by @b.nr select a.nr;
from account as a group by a.@name select a.nr;
from account as a group by a.@name select b.nr order by 9;
from account as a select @b.nr order by 9;
from account as a select sum @b.nr;
from account as a select a.nr, a.@name;
from account as a select min a.@name;
from account as a join firm as f select a.nr, f.@nr;
from account as a join firm as f where a.owner = f.@owner select a.nr;
from account as a join account as @a select a.nr;
from account as a join firm as f join firm as @a select b.nr;
from firm as f join account as a join firm as @f join firm as a select a.nr;
from account as a where a.nr = @"1" select a.nr;
from account as a where a.owner = @1 select a.nr;
from account as a where a.owner = @-1 select a.nr;
from account as a where a.owner = @a.nr select a.nr;
from account as a where a.block = @true select a.nr;
from account as a where a.nr = 1 and a.pos != @x"00" select b.nr;
from firm as f where f.open < @f.name select f.name;
from account as a join firm as f where a.nr = @f.name select b.nr;
from account as a select sum @a.owner;
from account as a select count, sum @a.owner;
from firm as f group by f.open select sum @f.open;
from account as a select @a.nr, count;
from account as a select count, @a.nr order by 3;
from account as a group by a.owner select @a.nr;
from account as a group by a.owner select a.owner, @a.block;
from account as a group by a.block select a.block, @a.pos;
from account as a select a.nr order by @0;
from account as a select a.nr order by @2;
from account as a select a.nr, a.owner order by 2, 1, @3;
from account as a select a.nr order by @9223372036854775807;
from account as a select a.nr order by @4294967297;
"#;
