// What a seat of the board's table knows, the rule that the table keeps, and what each step tells.
use crate::flags::{Alert, News};
use atomic_table::{Join, Play, Split, TableRule};
use std::collections::LinkedList;
use std::marker::{Brand, PhantomData};

// The pen has the publications of each place; a look has what it has seen at each place, and how often it has loaded each word; `told` is what a joined seat brought. No value of it is made.
pub struct View {
    pub pen: bool,
    pub logs: LinkedList<LinkedList<Alert>>,
    pub seen: LinkedList<News>,
    pub told: LinkedList<News>,
    pub loads: LinkedList<u64>,
}

pub struct Alerts;

impl TableRule<(), View, usize> for Alerts {
    ghost use Rattle.alert_board.specs.Rule.{Kept, first_view};

    ghost holds = { λ _. Kept };

    ghost first = { first_view };
}

// The flags that are published, for proofs alone. A call at `Brand` picks them.
pub trait Says {
    ghost use Rattle.alert_board.specs.declared.flags.Alert.{Alert};

    ghost flags: { Alert };
}

impl Says for Brand {
    ghost use Rattle.alert_board.specs.Alerts.{no_alert};

    ghost flags = { no_alert };
}

pub struct Publishes<J> {
    of: PhantomData<J>,
}

impl<J: Says> Play<(), View> for Publishes<J> {
    ghost use Rattle.alert_board.specs.Rule.{Published};

    ghost then = { Published J.flags };
}

pub struct Polls;

impl Play<(), View> for Polls {
    ghost use Rattle.alert_board.specs.Rule.{Polled};

    ghost then = { Polled };
}

// The step after `Joins`.
pub struct Orders;

impl Play<(), View> for Orders {
    ghost use Rattle.alert_board.specs.Rule.{Ordered};

    ghost then = { Ordered };
}

// The step after `Meets`.
pub struct Compares;

impl Play<(), View> for Compares {
    ghost use Rattle.alert_board.specs.Rule.{Compared};

    ghost then = { Compared };
}

pub struct Fresh;

impl Split<View> for Fresh {
    ghost use Rattle.alert_board.specs.Rule.{fresh_look};

    ghost left = { λ view. view };

    ghost right = { fresh_look };
}

pub struct Copies;

impl Split<View> for Copies {
    ghost use Rattle.alert_board.specs.Rule.{same_look};

    ghost left = { λ view. view };

    ghost right = { same_look };
}

pub struct Joins;

impl Join<View> for Joins {
    ghost use Rattle.alert_board.specs.Rule.{joined, spent_view};

    ghost both = { joined };

    ghost spent = { spent_view };
}

pub struct Meets;

impl Join<View> for Meets {
    ghost use Rattle.alert_board.specs.Rule.{met, spent_view};

    ghost both = { met };

    ghost spent = { spent_view };
}
