// Why a call is refused.
ghost use Rattle.std.specs.Prelude.{◌≡◌};
ghost use Rattle.tree.specs.Answered.{number_of};

use std::error::Error;
use std::fmt;

// The refusals of documents 01 and 02, each with the number that it has there.
#[derive(Clone, Copy, Debug, PartialEq, Eq, Hash)]
pub enum Refusal {
    LineAbove63 = 1,
    PeriodOutOfRange = 2,
    LineOpen = 3,
    LineNotOpen = 4,
    NoRoom = 5,
    NoOrder = 6,
    ListLength = 7,
    BufferTooShort = 8,
    WalkerAtEnd = 9,
    NoNode = 10,
    NoClass = 11,
    NoLineInClass = 12,
    ImageLength = 13,
    ImageField = 14,
    OpenInBoth = 15,
    DoubledPeriodOutOfRange = 16,
}

impl From<Refusal> for u8 {
    ghost from_gives = { λ refusal number. number ≡ number_of refusal };

    fn from(refusal: Refusal) -> u8 {
        refusal as u8
    }
}

impl fmt::Display for Refusal {
    fn fmt<W: fmt::Write>(&self, f: &mut fmt::Formatter<W>) -> fmt::Result {
        f.write_str(match self {
            Refusal::LineAbove63 => "the line's number is above 63",
            Refusal::PeriodOutOfRange => "the period is out of range",
            Refusal::LineOpen => "the line is open",
            Refusal::LineNotOpen => "the line is not open",
            Refusal::NoRoom => "no node has room for the period",
            Refusal::NoOrder => "these are no order",
            Refusal::ListLength => "the list's length is no multiple of 3, or above 65,535",
            Refusal::BufferTooShort => "the lent buffer is too short for what is written",
            Refusal::WalkerAtEnd => "the walker can not go on: one of its numbers is 2^64 - 1",
            Refusal::NoNode => "no node has this level and offset",
            Refusal::NoClass => "the node has no such class for the period",
            Refusal::NoLineInClass => "no line stands in the class",
            Refusal::ImageLength => "the image has too few or too many bytes",
            Refusal::ImageField => "the image's bits are no legal tree's",
            Refusal::OpenInBoth => "a line is open in both plans",
            Refusal::DoubledPeriodOutOfRange => "a doubled period is above 4,095",
        })
    }
}

impl Error for Refusal {}
