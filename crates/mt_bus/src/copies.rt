ghost use Rattle.std.specs.Prelude.{◌≡◌};
ghost use Rattle.mt_cache.specs.Lines.{change_line, clean_line, without_line};
ghost use Rattle.mt_machine.specs.Memory.{write_back_of};

use crate::words::write_back;
use mt_cache::Cache;
use mt_ram::Ram;

/// Writes the dirty words of a cache's copy of a line to memory. The copy stays, clean.
pub(crate) fn clean_copy(cache: &mut Cache, ram: &mut Ram, number: u64)
    ensures cache { cache.new ≡ change_line number clean_line cache.old }
    ensures ram { ram.new ≡ write_back_of number ram.old cache.old }
{
    if let Some(i) = cache.find(number) {
        write_back(ram, cache.nth(i));
        cache.clean(i);
    }
}

/// Writes the dirty words of a cache's copy of a line to memory, and drops the copy.
#[inline(always)]
pub(crate) fn drop_copy(cache: &mut Cache, ram: &mut Ram, number: u64)
    ensures cache { cache.new ≡ without_line number cache.old }
    ensures ram { ram.new ≡ write_back_of number ram.old cache.old }
{
    if let Some(i) = cache.find(number) {
        write_back(ram, cache.nth(i));
        cache.invalidate(i);
    }
}
