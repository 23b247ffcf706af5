use mt_regs::Fault;

/// What is wrong with a wish.
#[derive(Clone, Copy, Debug, Drop, PartialEq, Eq)]
pub enum WishFault {
    /// Its last page is below its first one.
    NoPage,
    /// Its last page is beyond the address width.
    BeyondWidth,
    /// The processor hasn't its type.
    UnsupportedType,
}

/// Why no file is made. A variant comes only if none of those before it does.
#[derive(Clone, Copy, Debug, Drop, PartialEq, Eq)]
pub enum MendFault {
    /// There are more than `MAX_WISHES`.
    TooManyWishes,
    /// The first wish at fault, by its number from 0 on.
    Wish { number: u32, fault: WishFault },
    /// The first register at fault by itself.
    Refused(Fault),
    /// The range registers are off.
    Disabled,
    /// The first page whose fixed range is to have several types.
    FixedRange { page: u64 },
    /// The first page that is to have no defined type, or one that the processor hasn't.
    Undefined { page: u64 },
    /// The wished types need `needs` pairs at least, and only `has` may be used.
    TooFew { needs: u64, has: u32 },
}
