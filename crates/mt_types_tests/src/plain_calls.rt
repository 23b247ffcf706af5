//! The calls that `mt_c` exports, each once where it succeeds, and for each status that one of them returns.
use crate::checks::holds;
use mt_plain::{
    PlainFault, PlainLoss, PlainNeed, PlainPair, PlainProcessor, PlainRegisters, PlainRun,
    PlainStep, PlainUpdate, did, due, effective_type, first_fault, gran, is_file, page_type, tidy,
    type_map,
};
use mt_tidy::WorkArea;

const NONE: PlainFault = PlainFault {
    number: 0,
    reason: 0,
};

// Eight pairs, of which the first is WB up to 4 GB, and UC by default; bits 8 and 10 of the capabilities are set.
fn plain() -> PlainRegisters {
    let mut pairs = [PlainPair { base: 0, mask: 0 }; 32];
    pairs[0] = PlainPair {
        base: 6,
        mask: 0xf_0000_0800,
    };
    PlainRegisters {
        width: 36,
        capabilities: 0x508,
        pairs,
        fixed: [0; 11],
        pat: 0x0007_0406_0007_0406,
        default_type: 0x800,
    }
}

// Whether a pair has these values.
fn is_pair(r: &PlainRegisters, place: usize, base: u64, mask: u64) -> bool {
    match r.pairs.get(place) {
        Some(pair) => pair.base == base && pair.mask == mask,
        None => false,
    }
}

#[test]
fn faults_and_types(rt: HostRuntime) {
    let mut r = plain();
    let mut fault = NONE;
    let mut kind = 9;
    holds(&rt, is_file(&r));
    holds(&rt, first_fault(&r, &mut fault) == 0);
    holds(&rt, page_type(&r, 0x1_0000_0000, &mut kind) == 3);
    holds(&rt, effective_type(&r, 0, 8, &mut kind) == 5);
    holds(&rt, kind == 9);
    holds(&rt, page_type(&r, 0xf_ffff, &mut kind) == 0);
    holds(&rt, kind == 6);
    holds(&rt, effective_type(&r, 0, 1, &mut kind) == 0);
    holds(&rt, kind == 4);
    r.pairs[1] = PlainPair {
        base: 0xc000_0001,
        mask: 0xf_f000_0800,
    };
    holds(&rt, page_type(&r, 0xc_0000, &mut kind) == 4);
    r.pairs[0].base = 2;
    holds(&rt, first_fault(&r, &mut fault) == 1);
    holds(&rt, fault.number == 0x200);
    holds(&rt, fault.reason == 2);
    r.pairs[8].mask = 1;
    holds(&rt, !is_file(&r));
    holds(&rt, first_fault(&r, &mut fault) == 2);
}

const BLANK: PlainRun = PlainRun {
    first: 9,
    pages: 9,
    kind: 9,
};

fn is_run(run: PlainRun, first: u64, pages: u64, kind: u32) -> bool {
    run.first == first && run.pages == pages && run.kind == kind
}

#[test]
fn a_type_map(rt: HostRuntime) {
    let r = plain();
    let mut runs = [BLANK; 3];
    let mut count = 9;
    holds(&rt, type_map(&r, &mut runs[..1], &mut count) == 6);
    holds(&rt, count == 2);
    holds(&rt, is_run(runs[1], 9, 9, 9));
    holds(&rt, type_map(&r, &mut runs, &mut count) == 0);
    holds(&rt, is_run(runs[0], 0, 0x10_0000, 6));
    holds(&rt, is_run(runs[1], 0x10_0000, 0xf0_0000, 0));
    holds(&rt, is_run(runs[2], 9, 9, 9));
}

// One processor of two registers alone, from the call to the end.
#[test]
fn the_books_of_an_update(rt: HostRuntime) {
    let mut u = PlainUpdate {
        word: 1,
        processors: 1,
        arrived: 0,
        arrived_again: 0,
    };
    let mut p = PlainProcessor {
        phase: 0,
        place: 0,
        registers: 2,
        self_snoop: 0,
        finished: 0,
    };
    let mut step = PlainStep {
        number: 0,
        place: 0,
        next_phase: 0,
        next_place: 0,
    };
    for number in [1u32, 2, 4, 5, 6, 7, 8, 9, 10, 6, 7, 11, 12, 13, 14] {
        holds(&rt, due(&u, &p, &mut step) == 0);
        holds(&rt, step.number == number);
        holds(&rt, did(&mut u, &mut p, &step) == 0);
    }
    holds(&rt, u.arrived == 1);
    holds(&rt, u.arrived_again == 1);
    holds(&rt, p.finished == 1);
    holds(&rt, due(&u, &p, &mut step) == 7);
    holds(&rt, did(&mut u, &mut p, &step) == 12);
    p.self_snoop = 2;
    holds(&rt, due(&u, &p, &mut step) == 8);
}

// Two pairs of 2 GB each, or with other values: WB to 4 GB.
#[test]
fn two_pairs_are_one(rt: HostRuntime) {
    let mut r = plain();
    r.pairs[0].mask = 0xf_8000_0800;
    r.pairs[1] = PlainPair {
        base: 0x8000_0006,
        mask: 0xf_8000_0800,
    };
    let mut tidied = plain();
    tidied.pairs[3].base = 9;
    let mut need = PlainNeed { needs: 9, has: 9 };
    let mut work = WorkArea::new();
    holds(&rt, tidy(&r, 1, 0, &mut work, &mut tidied, &mut need) == 0);
    holds(&rt, need.needs == 1 && need.has == 7);
    holds(&rt, is_pair(&tidied, 0, 6, 0xf_0000_0800));
    holds(&rt, is_pair(&tidied, 3, 0, 0));
    holds(&rt, tidy(&r, 8, 0, &mut work, &mut tidied, &mut need) == 10);
    holds(&rt, need.has == 0);
}

// What a rounding writes besides the parts.
#[derive(Drop)]
struct Rounding {
    registers: PlainRegisters,
    need: PlainNeed,
    loss: PlainLoss,
}

// Rounds to granules of so many bytes, where ranges of any size may share pages.
fn round(r: &PlainRegisters, size: u64, to: &mut Rounding, parts: &mut [PlainRun]) -> u32 {
    let mut work = WorkArea::new();
    let (registers, need, loss) = (&mut to.registers, &mut to.need, &mut to.loss);
    gran(r, size, 1, 1 << 52, &mut work, registers, need, loss, parts)
}

// WB to 4 GB but for a megabyte of UC from 3.5 GB, in granules of 256 MB.
#[test]
fn granules_of_a_hole(rt: HostRuntime) {
    let mut r = plain();
    r.pairs[1] = PlainPair {
        base: 0xe000_0000,
        mask: 0xf_fff0_0800,
    };
    let mut to = Rounding {
        registers: plain(),
        need: PlainNeed { needs: 9, has: 9 },
        loss: PlainLoss { pages: 9, parts: 9 },
    };
    let mut parts = [BLANK; 2];
    holds(&rt, round(&r, 0x3000, &mut to, &mut parts) == 11);
    holds(&rt, round(&r, 0x1000_0000, &mut to, &mut parts) == 0);
    holds(&rt, to.need.needs == 2 && to.need.has == 7);
    holds(&rt, to.loss.pages == 65280 && to.loss.parts == 1);
    holds(&rt, is_run(parts[0], 0xe_0100, 0xff00, 6));
    holds(&rt, is_run(parts[1], 9, 9, 9));
    holds(&rt, is_pair(&to.registers, 1, 0xe000_0000, 0xf_f000_0800));
    r.default_type = 0;
    holds(&rt, round(&r, 0x1000, &mut to, &mut parts) == 9);
}
