//! Decision tables: one row for each case of a state and a message, with the action to be taken.
#![tactic(auto)]

ghost use Rattle.std.specs.Prelude.{◌≡◌, ◌<◌, ℕ, true, false, IsOk, IfOk, IfErr, ◌↔◌, MatchOption, length, position};
ghost use Rattle.field_cases.specs.Table.{is_case, has_row, same_at, action_of, IsRow, IsSound, IsFault, HasNoTwin, IsFirstTwin, IsNextTwin, IsWhole, IsFirstGap, IsFirstGapOf};

/// What is to be done in a state when a message comes. The three numbers are the table's own codes.
#[derive(Clone, Copy, Debug, PartialEq, Eq)]
pub struct Row {
    pub state: u8,
    pub message: u8,
    pub action: u8,
}

/// The first fault of a table. Rows are counted from 0.
#[derive(Clone, Copy, Debug, PartialEq, Eq)]
pub enum RowFault {
    /// Two rows have the same state and message.
    Twice { first: usize, second: usize },
    /// No row has this state and message.
    Missing { state: u8, message: u8 },
}

/// The rows of a table, in any order, for the states below `states` and the messages below
/// `messages`.
#[derive(Clone, Copy, Debug, PartialEq, Eq)]
pub struct Cases<const N: usize> {
    pub rows: [Row; N],
    pub states: u8,
    pub messages: u8,
}

/// A table that has exactly one row for each case.
#[derive(Clone, Copy, Debug)]
pub struct Sound<const N: usize> {
    pub cases: Cases<N>,
    ghost sound: { IsSound cases.rows cases.states cases.messages },
}

// The place of the first row of a case.
fn place_of(rows: &[Row], state: u8, message: u8) -> Option<usize>
    ensures { result ≡ position (is_case state message) rows.now }
{
    rows.iter()
        .position(|row| row.state == state && row.message == message)
}

// The first row behind this one that is of the same case.
fn next_twin(rows: &[Row], first: usize) -> Option<usize>
    requires { first < length rows.now }
    ensures { MatchOption result ((j : ℕ) → first < j → same_at rows.now first j ≡ false) (IsNextTwin rows.now first) }
{
    let row = rows[first];
    for second in first + 1..rows.len() {
        let other = rows[second];
        if row.state == other.state && row.message == other.message {
            return Some(second);
        }
    }
    None
}

// The first pair of rows of one case.
fn first_twins(rows: &[Row]) -> Option<(usize, usize)>
    ensures { MatchOption result (HasNoTwin rows.now) (λ pair. IsFirstTwin rows.now pair.0 pair.1) }
{
    for first in 0..rows.len() {
        if let Some(second) = next_twin(rows, first) {
            return Some((first, second));
        }
    }
    None
}

// The first message that has no row in this state.
fn first_gap_of(rows: &[Row], state: u8, messages: u8) -> Option<u8>
    ensures { MatchOption result ((m : ℕ) → m < messages → has_row rows.now state m ≡ true) (IsFirstGapOf rows.now state messages) }
{
    for message in 0..messages {
        if place_of(rows, state, message).is_none() {
            return Some(message);
        }
    }
    None
}

// The first case that has no row, by state and then by message.
fn first_gap(rows: &[Row], states: u8, messages: u8) -> Option<(u8, u8)>
    ensures { MatchOption result (IsWhole rows.now states messages) (λ gap. IsFirstGap rows.now states messages gap.0 gap.1) }
{
    for state in 0..states {
        if let Some(message) = first_gap_of(rows, state, messages) {
            return Some((state, message));
        }
    }
    None
}

impl<const N: usize> Cases<N> {
    /// The table, where each case has exactly one row. A fault is the first pair of rows of one
    /// case, by the first row and then by the second; where there is none, the first case without
    /// a row, by state and then by message. A row outside the states and messages stands for no
    /// case, and is at fault only if it has a twin.
    pub fn check(&self) -> Result<Sound<N>, RowFault>
        ensures sound { IsOk result ↔ IsSound self.now.rows self.now.states self.now.messages }
        ensures same { IfOk result (λ table. table.cases ≡ self.now) }
        ensures fault { IfErr result (IsFault self.now.rows self.now.states self.now.messages) }
    {
        if let Some((first, second)) = first_twins(&self.rows) {
            return Err(RowFault::Twice { first, second });
        }
        if let Some((state, message)) = first_gap(&self.rows, self.states, self.messages) {
            return Err(RowFault::Missing { state, message });
        }
        Ok(Sound { cases: *self })
    }
}

impl<const N: usize> Sound<N> {
    /// The action of the one row of this state and message.
    pub fn pick(&self, state: u8, message: u8) -> u8
        requires state_is_known { state < self.now.cases.states }
        requires message_is_known { message < self.now.cases.messages }
        ensures row { IsRow self.now.cases.rows state message result }
        ensures action { result ≡ action_of self.now.cases.rows state message }
    {
        match place_of(&self.cases.rows, state, message) {
            Some(place) => self.cases.rows[place].action,
            None => unreachable!(),
        }
    }
}
