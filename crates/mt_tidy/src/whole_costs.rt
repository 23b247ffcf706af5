ghost use Rattle.std.specs.Prelude.{◌≡◌, ◌+◌, ◌-◌, ◌≤◌, ◌^◌, List, set};
ghost use Rattle.std.specs.List.{All};
ghost use Rattle.mt_ranges.specs.Blocks.{block_end};
ghost use Rattle.mt_tidy.specs.Choosing.{HasCome, HasComeToBoth, IsChoice, halves_cost};
ghost use Rattle.mt_tidy.specs.Cost.{task_by, wish};
ghost use Rattle.mt_tidy.specs.Halved.{HasFound, HoldsHalves, KeepsSaved};
ghost use Rattle.mt_tidy.specs.declared.costs.Choice.{Choice};
ghost use Rattle.mt_trie.specs.Wishes.{IsDefined};
ghost use Rattle.mt_trie.specs.declared.wish.Wish.TheVariants.{Mixed};
ghost use Rattle.mt_types.specs.declared.run.Run.{Run};
ghost use Rattle.mt_types.specs.Runs.{IsTypeMap, pages_end};

use crate::block_costs::{NO_COSTS, divide, first_half, next_block, only_costs};
use crate::costs::Choice;
use crate::lent::wish_of;
use crate::rules::{Rules, Search};
use crate::work_area::CostTable;
use mt_ranges::Block;
use mt_trie::Wish;

// The costs of a block that is divided, from those of its halves, and its choice.
#[inline(never)] // so that its callers take little stack
pub fn find_divided(rules: &Rules, b: &Block, table: &mut CostTable) -> Choice
    requires halves { (runs : List Run) × HoldsHalves (task_by rules.now runs) b.now.log b.now.first table.old }
    ensures found { (runs : List Run) → HoldsHalves (task_by rules.now runs) b.now.log b.now.first table.old
        → HasFound (task_by rules.now runs) b.now.log b.now.first table.new }
    ensures choice { (runs : List Run) → HoldsHalves (task_by rules.now runs) b.now.log b.now.first table.old
        → IsChoice (task_by rules.now runs) b.now.log (halves_cost (task_by rules.now runs) (b.now.log - 1) b.now.first) result }
    ensures choices { table.new.choices ≡ table.old.choices }
    ensures saved { table.new.saved ≡ table.old.saved }
    ensures count { table.new.count ≡ table.old.count }
{
    let halves = table.halves(b.log - 1);
    let divided = divide(rules, b.log, &halves);
    table.found = divided.costs;
    divided.choice
}

/// Finds the costs of the halves of a block of which some pages want one type and some another.
#[cycle(finding)]
pub fn find_halves(search: &Search, b: &Block, table: &mut CostTable)
    requires map { IsTypeMap search.now.wanted }
    requires defined { All IsDefined search.now.wanted }
    requires covered { block_end b.now ≤ pages_end 0 search.now.wanted }
    requires mixed { wish (task_by search.now.rules search.now.wanted) b.now.log b.now.first ≡ Mixed }
    requires count { table.old.count + 2 ^ b.now.log ≤ 2 ^ 41 + 1 }
    ensures halves { HoldsHalves (task_by search.now.rules search.now.wanted) b.now.log b.now.first table.new }
    ensures come { HasComeToBoth (task_by search.now.rules search.now.wanted) (b.now.log - 1) b.now.first table.old table.new }
    ensures saved { KeepsSaved b.now.log table.old table.new }
{
    let mut half = first_half(b);
    find_costs(search, &half, table);
    table.save(half.log);
    half = next_block(&half);
    find_costs(search, &half, table);
}

/// Finds the costs of a block, and the choices of those that are divided within it.
#[cycle(finding)]
pub fn find_costs(search: &Search, b: &Block, table: &mut CostTable)
    requires map { IsTypeMap search.now.wanted }
    requires defined { All IsDefined search.now.wanted }
    requires covered { block_end b.now ≤ pages_end 0 search.now.wanted }
    requires count { table.old.count + 2 ^ b.now.log ≤ 2 ^ 41 }
    ensures found { HasFound (task_by search.now.rules search.now.wanted) b.now.log b.now.first table.new }
    ensures come { HasCome (task_by search.now.rules search.now.wanted) b.now.log b.now.first table.old table.new }
    ensures saved { KeepsSaved b.now.log table.old table.new }
{
    match wish_of(&search.wanted, &search.rules, b, &mut table.near) {
        Wish::Any => table.found = NO_COSTS,
        Wish::Only(t) => table.found = only_costs(search.rules.default, t),
        Wish::Mixed => {
            let place = table.count;
            table.count += 1;
            find_halves(search, b, table);
            let choice = find_divided(&search.rules, b, table);
            table.keep(place, choice);
        }
    }
}
