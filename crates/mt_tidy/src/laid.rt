ghost use Rattle.std.specs.Prelude.{◌≡◌, ◌++◌, ◌+◌, ◌-◌, ◌≤◌, ◌<◌, ◌^◌, ℕ, None, Option, Some, length, if◌then◌else◌, slice_get};
ghost use Rattle.std.specs.List.{All};
ghost use Rattle.mt_ranges.specs.Blocks.{block_end};
ghost use Rattle.mt_tidy.specs.Choosing.{Begun, HasChoices, IsChoice, divided_count, halves_cost, range_at};
ghost use Rattle.mt_tidy.specs.Cost.{Task, cost, divided, leaves_type, only_cost, task_by, wish};
ghost use Rattle.mt_tidy.specs.Fits.{Laid, context_with, laying, ranges_on};
ghost use Rattle.mt_tidy.specs.LeastList.{MayBeUsed};
ghost use Rattle.mt_tidy.specs.Room.{HasRoom};
ghost use Rattle.mt_trie.specs.Wishes.{IsDefined};
ghost use Rattle.mt_trie.specs.declared.context.Context.{Context};
ghost use Rattle.mt_trie.specs.declared.wish.Wish.TheVariants.{Mixed};
ghost use Rattle.mt_types.specs.Runs.{IsTypeMap, pages_end};

use crate::block_costs::{first_half, leaves_type, next_block, range_at, with_type};
use crate::costs::Choice;
use crate::lent::wish_of;
use crate::range::Range;
use crate::rules::{Rules, Search};
use crate::whole_costs::{find_divided, find_halves};
use crate::work_area::CostTable;
use arrayvec::ArrayVec;
use mt_kinds::MemType;
use mt_ranges::Block;
use mt_trie::{Context, Wish};

fn push_range(out: &mut ArrayVec<Range, 32>, b: &Block, kind: MemType)
    requires { length out.old.items < 32 }
    ensures { out.new.items ≡ out.old.items ++ ranges_on b.now.first b.now.log (Some kind) }
{
    out.push(Range {
        first: b.first,
        log: b.log,
        kind,
    });
}

// Finds the choice of a divided block for which the table has no room.
#[inline(never)] // so that its callers take little stack
fn find_again(search: &Search, b: &Block, table: &mut CostTable) -> Choice
    requires map { IsTypeMap search.now.wanted }
    requires defined { All IsDefined search.now.wanted }
    requires covered { block_end b.now ≤ pages_end 0 search.now.wanted }
    requires mixed { wish (task_by search.now.rules search.now.wanted) b.now.log b.now.first ≡ Mixed }
    requires count { table.old.count + 2 ^ b.now.log ≤ 2 ^ 41 + 1 }
    requires full { length table.old.choices ≤ table.old.count }
    ensures choice { IsChoice (task_by search.now.rules search.now.wanted) b.now.log
        (halves_cost (task_by search.now.rules search.now.wanted) (b.now.log - 1) b.now.first) result }
    ensures choices { (i : ℕ) → slice_get table.new.choices i ≡ slice_get table.old.choices i }
    ensures count { table.new.count ≡ table.old.count }
{
    let count = table.count;
    find_halves(search, b, table);
    table.count = count;
    find_divided(&search.rules, b, table)
}

// The choice of the divided block that the search came to next.
fn next_choice(search: &Search, b: &Block, table: &mut CostTable) -> Choice
    requires map { IsTypeMap search.now.wanted }
    requires defined { All IsDefined search.now.wanted }
    requires covered { block_end b.now ≤ pages_end 0 search.now.wanted }
    requires mixed { wish (task_by search.now.rules search.now.wanted) b.now.log b.now.first ≡ Mixed }
    requires count { table.old.count + 2 ^ b.now.log ≤ 2 ^ 41 }
    requires choices { HasChoices (task_by search.now.rules search.now.wanted) b.now.log b.now.first table.old.count table.old.choices }
    ensures choice { IsChoice (task_by search.now.rules search.now.wanted) b.now.log
        (halves_cost (task_by search.now.rules search.now.wanted) (b.now.log - 1) b.now.first) result }
    ensures choices { (i : ℕ) → slice_get table.new.choices i ≡ slice_get table.old.choices i }
    ensures count { table.new.count ≡ table.old.count + 1 }
{
    let place = table.count;
    table.count += 1;
    match table.kept(place) {
        Some(choice) => choice,
        None => find_again(search, b, table),
    }
}

// Adds the range of a choice for a divided block, and returns what is then left for the halves.
fn begin_with(choice: Choice, b: &Block, x: Context, out: &mut ArrayVec<Range, 32>) -> Context
    requires room { (k : Task) × (h : Context → Option ℕ) × IsChoice k b.now.log h choice × HasRoom (divided k b.now.log h x) out.old.items }
    ensures context { result ≡ context_with x (range_at choice x) }
    ensures ranges { out.new.items ≡ out.old.items ++ ranges_on b.now.first b.now.log (range_at choice x) }
    ensures room { (k : Task) (h : Context → Option ℕ) → IsChoice k b.now.log h choice → HasRoom (divided k b.now.log h x) out.old.items → HasRoom (h result) out.new.items }
{
    match range_at(choice, x) {
        None => x,
        Some(t) => {
            push_range(out, b, t);
            with_type(x, t)
        }
    }
}

// Adds the range that is chosen for a block of which some pages want one type and some another, and returns what is then
// left for the halves.
#[inline(never)] // so that `lay_in` takes little stack
fn begin_over(
    search: &Search,
    b: &Block,
    x: Context,
    table: &mut CostTable,
    out: &mut ArrayVec<Range, 32>,
) -> Context
    requires map { IsTypeMap search.now.wanted }
    requires defined { All IsDefined search.now.wanted }
    requires covered { block_end b.now ≤ pages_end 0 search.now.wanted }
    requires mixed { wish (task_by search.now.rules search.now.wanted) b.now.log b.now.first ≡ Mixed }
    requires count { table.old.count + 2 ^ b.now.log ≤ 2 ^ 41 }
    requires choices { HasChoices (task_by search.now.rules search.now.wanted) b.now.log b.now.first table.old.count table.old.choices }
    requires room { HasRoom (cost (task_by search.now.rules search.now.wanted) b.now.log b.now.first x) out.old.items }
    ensures begun { Begun (task_by search.now.rules search.now.wanted) b.now.log b.now.first (laying x out.old.items) (laying result out.new.items) }
    ensures room { HasRoom (halves_cost (task_by search.now.rules search.now.wanted) (b.now.log - 1) b.now.first result) out.new.items }
    ensures choices { (i : ℕ) → slice_get table.new.choices i ≡ slice_get table.old.choices i }
    ensures count { table.new.count ≡ table.old.count + 1 }
{
    let choice = next_choice(search, b, table);
    begin_with(choice, b, x, out)
}

// Adds the range of a block whose pages want one type, unless the context leaves them that type.
fn put_whole(rules: &Rules, b: &Block, x: Context, t: MemType, out: &mut ArrayVec<Range, 32>)
    requires { HasRoom (only_cost rules.now.default t x) out.old.items }
    ensures { out.new.items ≡ out.old.items ++ ranges_on b.now.first b.now.log (if leaves_type rules.now.default x t then None else Some t) }
{
    if !leaves_type(rules.default, x, t) {
        push_range(out, b, t);
    }
}

/// Adds a list that fits the block and is as short as its cost. The search came to the block's divided ones in the same
/// order.
pub fn lay_in(
    search: &Search,
    b: &Block,
    x: Context,
    table: &mut CostTable,
    out: &mut ArrayVec<Range, 32>,
)
    requires map { IsTypeMap search.now.wanted }
    requires usable { All (MayBeUsed search.now.rules) search.now.wanted }
    requires covered { block_end b.now ≤ pages_end 0 search.now.wanted }
    requires count { table.old.count + 2 ^ b.now.log ≤ 2 ^ 41 }
    requires choices { HasChoices (task_by search.now.rules search.now.wanted) b.now.log b.now.first table.old.count table.old.choices }
    requires room { HasRoom (cost (task_by search.now.rules search.now.wanted) b.now.log b.now.first x) out.old.items }
    ensures laid { Laid (task_by search.now.rules search.now.wanted) b.now.log b.now.first (laying x out.old.items) out.new.items }
    ensures choices { (i : ℕ) → slice_get table.new.choices i ≡ slice_get table.old.choices i }
    ensures count { table.new.count ≡ table.old.count + divided_count (task_by search.now.rules search.now.wanted) b.now.log b.now.first }
{
    match wish_of(&search.wanted, &search.rules, b, &mut table.near) {
        Wish::Any => {}
        Wish::Only(t) => put_whole(&search.rules, b, x, t, out),
        Wish::Mixed => {
            let y = begin_over(search, b, x, table, out);
            let mut half = first_half(b);
            lay_in(search, &half, y, table, out);
            half = next_block(&half);
            lay_in(search, &half, y, table, out);
        }
    }
}
