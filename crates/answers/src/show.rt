//! How an answer is printed.

ghost use Rattle.std.specs.Prelude.{Some};
ghost use Rattle.answers.specs.Told.{spelt_kind, spelt_account, spelt_answer};

use crate::answer::{Account, Answer, FloorKind};
use std::fmt;

impl fmt::Display for FloorKind {
    ghost output = { λ k. Some (spelt_kind k) };

    fn fmt<W: fmt::Write>(&self, f: &mut fmt::Formatter<W>) -> fmt::Result {
        match self {
            FloorKind::Rail => write!(f, "rail"),
            FloorKind::Hall => write!(f, "hall"),
        }
    }
}

impl fmt::Display for Account {
    ghost output = { λ a. Some (spelt_account a) };

    fn fmt<W: fmt::Write>(&self, f: &mut fmt::Formatter<W>) -> fmt::Result {
        let Account {
            kind,
            places,
            legs,
            carriers,
            entries,
        } = self;
        write!(
            f,
            "{kind} places {places} legs {legs} carriers {carriers} entries {entries}"
        )
    }
}

impl fmt::Display for Answer {
    ghost output = { λ a. Some (spelt_answer a) };

    fn fmt<W: fmt::Write>(&self, f: &mut fmt::Formatter<W>) -> fmt::Result {
        match self.0 {
            Ok(account) => write!(f, "plan read {account}"),
            Err(fault) => write!(f, "file refused {fault}"),
        }
    }
}
