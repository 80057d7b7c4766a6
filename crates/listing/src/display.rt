// Calls, their answers and the stops of a run in words.
ghost use Rattle.listing.specs.Words.{call_text, answer_text, whereabouts_text, stop_text};

use crate::calls::{Answer, Call, Stop};
use crate::whereabouts::Whereabouts;
use shapes::shown::Spaced;
use std::error::Error;
use std::fmt;

impl fmt::Display for Call {
    ghost output = { call_text };

    fn fmt<W: fmt::Write>(&self, f: &mut fmt::Formatter<W>) -> fmt::Result {
        match self {
            Call::Next => write!(f, "next"),
            Call::Ask(shape) => write!(f, "where is {shape}"),
        }
    }
}

impl fmt::Display for Answer {
    ghost output = { answer_text };

    fn fmt<W: fmt::Write>(&self, f: &mut fmt::Formatter<W>) -> fmt::Result {
        match self {
            Answer::Handed(entry) => write!(
                f,
                "{}, stabiliser {}, orbit size {}",
                entry.shape,
                Spaced(entry.stabiliser.as_slice()),
                entry.orbit_size
            ),
            Answer::Refused(refusal) => write!(f, "refused by {}", u8::from(*refusal)),
            Answer::Told(whereabouts) => write!(f, "{whereabouts}"),
        }
    }
}

impl fmt::Display for Whereabouts {
    ghost output = { whereabouts_text };

    fn fmt<W: fmt::Write>(&self, f: &mut fmt::Formatter<W>) -> fmt::Result {
        match self {
            Whereabouts::Given => write!(f, "given"),
            Whereabouts::ToCome => write!(f, "to come"),
            Whereabouts::Foreign => write!(f, "foreign"),
        }
    }
}

impl fmt::Display for Stop {
    ghost output = { stop_text };

    fn fmt<W: fmt::Write>(&self, f: &mut fmt::Formatter<W>) -> fmt::Result {
        match self {
            Stop::Opening(_) => write!(f, "the lister was not opened"),
            Stop::Memory => write!(f, "there is no memory for one more answer"),
        }
    }
}

impl Error for Stop {}
