// Loading a save (02, order 8). The definitions are crate saves: `load_of` says what is answered, test by test, and what router is left. The
// numbers are read three times, so that nothing is stored before all of them are known: do they stand there, are they in their ranges, and
// then into their slots.
#![tactic(auto)]

pub mod numbers;
pub mod passes;
pub mod ranges;
pub mod row;

ghost use Rattle.std.specs.Prelude.{None, Ok};
ghost use Rattle.std.specs.Prelude.{◌≡◌, ℕ, ◌*◌, ◌≤◌, true, List, length};
ghost use Rattle.varint.specs.Groups.{read_at};
ghost use Rattle.params.specs.declared.Params.{Params as Parameters};
ghost use Rattle.params.specs.Check.{first_broken};
ghost use Rattle.records.specs.Records.{State, slot_count, param_count};
ghost use Rattle.layout.specs.View.{cell_count, state_of};
ghost use Rattle.validity.specs.Valid.{max_time};
ghost use Rattle.saves.specs.Load.{numbers, parse_from, most_of, slots_of, records as recordsOf, counted, opened, loaded_state, load_of, Loads};
ghost use Rattle.save_load.specs.Judge.{is_read, judge_of};
ghost use Rattle.save_load.specs.Store.{Loadable};
ghost use Rattle.save_load.specs.Checked.{Coded, Says, Checks};

use crate::row::ROW;
use layout::CELLS;
use params::Params;
use records::SLOTS;
use saves::LoadError;
use validity::valid::MAX_TIME;

// How many records an edition may have, if it is one.
fn slots_of(edition: u64) -> Option<usize>
    ensures { result ≡ slots_of edition }
{
    match edition {
        1 => Some(64),
        2 => Some(SLOTS),
        _ => None,
    }
}

// The place of the first of n numbers that is outside its range.
fn judge(codes: &[u64], s: &[u8], at: usize, n: usize) -> Option<usize>
    requires { (length codes.now ≡ param_count) × (is_read (parse_from n s.now at) ≡ true) }
    ensures { (st : State) → st.codes ≡ codes.now →
        result ≡ judge_of (most_of st) s.now at n (parse_from n s.now at) }
{
    let mut most = [0u64; ROW];
    ranges::fill_most(codes, &mut most);
    passes::first_outside(s, at, n, &most)
}

// The n records that stand from `at` on: how many, and where, if none is malformed or outside its range.
fn check_records(codes: &[u64], s: &[u8], n: usize, at: usize) -> Result<(usize, usize), LoadError>
    requires { (length codes.now ≡ param_count) × (n ≤ slot_count) }
    ensures { (p : Parameters) (clock : ℕ) → Coded p codes.now →
        Says p clock s.now (recordsOf p clock s.now n at) result }
{
    let next = passes::skim_numbers(s, at, n * ROW)?;
    if next < s.len() {
        return Err(LoadError::Malformed(next));
    }
    if let Some(place) = judge(codes, s, at, n * ROW) {
        return Err(LoadError::Broken(place));
    }
    Ok((n, at))
}

// The count at `at`, of an edition with at most so many records.
fn check_count(codes: &[u64], s: &[u8], most: usize, at: usize) -> Result<(usize, usize), LoadError>
    requires { (length codes.now ≡ param_count) × (most ≤ slot_count) }
    ensures { (p : Parameters) (clock : ℕ) → Coded p codes.now →
        Says p clock s.now (counted p clock s.now most at (read_at 18446744073709551615 s.now at)) result }
{
    let Some((n, next)) = varint::read_u64(s, at) else {
        return Err(LoadError::Malformed(at));
    };
    if (most as u64) < n {
        return Err(LoadError::Broken(at));
    }
    check_records(codes, s, n as usize, next)
}

// The edition at the front.
fn check_edition(codes: &[u64], s: &[u8]) -> Result<(usize, usize), LoadError>
    requires { length codes.now ≡ param_count }
    ensures { (p : Parameters) (clock : ℕ) → Coded p codes.now →
        Says p clock s.now (opened p clock s.now (read_at 18446744073709551615 s.now 0)) result }
{
    let Some((e, next)) = varint::read_u64(s, 0) else {
        return Err(LoadError::Malformed(0));
    };
    let Some(most) = slots_of(e) else {
        return Err(LoadError::Broken(0));
    };
    check_count(codes, s, most, next)
}

// All tests.
fn check_all(params: Params, clock: u64, s: &[u8]) -> Result<(usize, usize), LoadError>
    ensures { Checks params clock s.now (load_of true params clock s.now) result }
{
    if let Some(i) = params.first_broken() {
        return Err(LoadError::Broken(i));
    }
    if MAX_TIME < clock {
        return Err(LoadError::OutOfRange);
    }
    let numbers = params.numbers;
    let codes = limits::codes_of(&numbers);
    check_edition(&codes, s)
}

// Makes the router of n records that passed all tests, as did the parameters.
fn make(
    params: Params,
    clock: u64,
    s: &[u8],
    n: usize,
    at: usize,
    table: &mut [u64],
) -> Result<(), LoadError>
    requires { (length table.old ≡ cell_count)
        × ((n ≤ slot_count) × ((clock ≤ max_time) × ((first_broken params ≡ None) × Loadable s.now at n))) }
    ensures made { result ≡ Ok tt }
    ensures state { (l : List ℕ) (end : ℕ) → parse_from (n * 44) s.now at ≡ numbers l end →
        state_of table.new ≡ loaded_state params clock n l }
{
    lookup::fresh::fresh(params, table)?;
    layout::store_clock(table, clock);
    row::store_rows(table, s, at, n, clock);
    Ok(())
}

// Loads a save with parameters, at a clock: 9 and 2, then edition and count, then 10 before 9; a refusal leaves the table as it was.
pub fn load(params: Params, clock: u64, s: &[u8], table: &mut [u64; CELLS]) -> Result<(), LoadError>
    ensures { Loads (load_of true params clock s.now) result table.old table.new }
{
    let (n, at) = check_all(params, clock, s)?;
    make(params, clock, s, n, at, table)
}
