//! The least numbers of ranges for each way to give types to some cells of 32 bits, beside those that a search through
//! all lists of ranges gave.
ghost use Rattle.std.specs.Prelude.{◌<◌, ◌≤◌, length};

use crate::checks::holds_at;
use mt_regs::RegFile;
use mt_tidy::{WorkArea, tidy};

// Sets pair n to a range of one cell of `2^log` bytes, or to zeros if the cell has the default type.
fn set_cell(f: &mut RegFile, n: u32, log: u32, byte: u64, default: u64)
    requires cells { n < 8 }
    requires size { log < 32 }
{
    let valid = 0x1_0000_0000u64.wrapping_sub(1 << log) | 0x800;
    let (base, mask) = if byte == default {
        (0, 0)
    } else {
        (((n as u64) << log) | byte, valid)
    };
    let _ = f.set(0x200 + 2 * n, base);
    let _ = f.set(0x201 + 2 * n, mask);
}

// Gives each cell its type, by the digits of a number.
fn set_cells(f: &mut RegFile, cells: u32, log: u32, bytes: &[u64], default: u64, number: usize)
    requires cells { cells ≤ 8 }
    requires size { log < 32 }
    requires some { 0 < length bytes.now }
{
    let mut rest = number;
    for cell in 0..cells {
        set_cell(f, cell, log, bytes[rest % bytes.len()], default);
        rest = rest / bytes.len();
    }
}

// The number of pairs of the tidied file, at most five, or 99 if there is none. The area has what the file before left.
fn pairs_used(f: &RegFile, chunk: u64, area: &mut WorkArea) -> u64 {
    match tidy(f, 0, chunk, area) {
        Ok(tidied) => (tidied.used as u64).min(5),
        Err(_) => 99,
    }
}

// Each way to give five types to four cells, or three types to eight, as a sum, or 0 if there is no file.
fn sum_of(cells: u32, default: u64, chunk: u64, area: &mut WorkArea) -> u64 {
    let Ok(mut f) = RegFile::blank(32, 0x520) else {
        return 0;
    };
    let _ = f.set(0x2ff, 0x800 | default);
    let ways = if cells == 4 { 625 } else { 6561 };
    let mut sum: u64 = 0;
    for number in 0..ways {
        if cells == 4 {
            set_cells(&mut f, 4, 30, &[0, 1, 4, 5, 6], default, number);
        } else {
            set_cells(&mut f, 8, 29, &[0, 4, 6], default, number);
        }
        sum = sum
            .wrapping_mul(31)
            .wrapping_add(pairs_used(&f, chunk, area));
    }
    sum
}

#[test]
fn all_types_of_some_cells(rt: HostRuntime) {
    let mut area = WorkArea::new();
    for (cells, default, chunk, wanted) in [
        (4, 0, 0, 0x70b6_976d_b86a_ecf4),
        (4, 0, 0x4000_0000, 0x70b6_976d_b86a_ecf4),
        (4, 0, 0x8000_0000, 0x70b6_976d_b86a_ecf4),
        (4, 0, 0x1_0000_0000, 0x8edc_5b97_48a4_91ec),
        (4, 6, 0, 0x66d0_d66b_a59e_1af4),
        (4, 6, 0x4000_0000, 0x66d0_d66b_a59e_1af4),
        (4, 6, 0x8000_0000, 0x66d0_d66b_a59e_1af4),
        (4, 6, 0x1_0000_0000, 0xa89d_043e_4052_f5ec),
        (8, 0, 0, 0x8464_5490_f642_6012),
        (8, 0, 0x4000_0000, 0x8464_5490_f642_6012),
        (8, 0, 0x8000_0000, 0x51ec_80b2_ec51_f1f2),
        (8, 0, 0x1_0000_0000, 0xdf84_6204_74a6_1a12),
    ] {
        let sum = sum_of(cells, default, chunk, &mut area);
        holds_at(&rt, chunk | default, sum == wanted);
    }
}
