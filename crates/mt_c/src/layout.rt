// Sizes and alignments in bytes, as `include/mtrr.h` asserts them. `repr(C)` puts each field at the first place behind the field
// before that its alignment allows. Rattle has no `offset_of` to assert the header's offsets by; `library/edges.c` tests fields of each.
use mt_plain::{
    PlainFault, PlainLoss, PlainNeed, PlainPair, PlainProcessor, PlainRegisters, PlainRun,
    PlainStep, PlainUpdate,
};
use mt_tidy::WorkArea;

const _: () = prove!(size_of::<PlainPair>() == 16);

const _: () = prove!(align_of::<PlainPair>() == 8);

const _: () = prove!(size_of::<PlainRegisters>() == 632);

const _: () = prove!(align_of::<PlainRegisters>() == 8);

const _: () = prove!(size_of::<PlainFault>() == 8);

const _: () = prove!(align_of::<PlainFault>() == 4);

const _: () = prove!(size_of::<PlainRun>() == 24);

const _: () = prove!(align_of::<PlainRun>() == 8);

const _: () = prove!(size_of::<PlainNeed>() == 16);

const _: () = prove!(align_of::<PlainNeed>() == 8);

const _: () = prove!(size_of::<PlainLoss>() == 16);

const _: () = prove!(align_of::<PlainLoss>() == 8);

const _: () = prove!(size_of::<WorkArea>() == 53752);

const _: () = prove!(align_of::<WorkArea>() == 8);

const _: () = prove!(size_of::<PlainUpdate>() == 16);

const _: () = prove!(align_of::<PlainUpdate>() == 4);

const _: () = prove!(size_of::<PlainProcessor>() == 16);

const _: () = prove!(align_of::<PlainProcessor>() == 4);

const _: () = prove!(size_of::<PlainStep>() == 16);

const _: () = prove!(align_of::<PlainStep>() == 4);
