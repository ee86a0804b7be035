// The router's parameters (01, "The sheet"): 147 numbers, and the check of their limits (crate limits) and of their joint rules. Their form
// in bytes is crate params_bytes.
#![tactic(auto)]

mod joint;
mod ordinary;

ghost use Rattle.std.specs.Prelude.{◌≡◌, length};
ghost use Rattle.records.specs.Records.{param_count};
ghost use Rattle.params.specs.Editions.{coded, IsNumberOf, IsEditionOf};
ghost use Rattle.params.specs.Check.{first_broken, accepted_by, accepted_codes};
ghost use Rattle.params.specs.Ordinary.{ordinary_params};

use limits::NUMBERS;

// The number of the first joint rule among the places of 9.
const FIRST_RULE: usize = 200;

// The editions of the parameters: the first is 01's, and the second (02, order 14) has another rule on D_score.
#[derive(Clone, Copy)]
pub enum Edition {
    First,
    Second,
}

// The parameters, in 01's order: 19 general numbers, then 16 for each of the 8 topics.
#[derive(Clone, Copy)]
pub struct Params {
    pub numbers: [i64; NUMBERS],
    pub edition: Edition,
}

// The editions by their numbers, as a router's tables and a host say them.
impl From<Edition> for u64 {
    ghost from_gives = { IsNumberOf };

    fn from(edition: Edition) -> u64 {
        match edition {
            Edition::First => 1,
            Edition::Second => 2,
        }
    }
}

// A number that is no edition's.
#[derive(Clone, Copy)]
pub struct UnknownEdition(pub u64);

impl TryFrom<u64> for Edition {
    type Error = UnknownEdition;

    ghost try_from_gives = { IsEditionOf };

    fn try_from(n: u64) -> Result<Edition, UnknownEdition> {
        match n {
            1 => Ok(Edition::First),
            2 => Ok(Edition::Second),
            _ => Err(UnknownEdition(n)),
        }
    }
}

// The first number that is not between its limits; if there is none, 200 and the first joint rule that is broken.
fn first_broken_code(edition: Edition, codes: &[u64]) -> Option<usize>
    requires { length codes.now ≡ param_count }
    ensures { result ≡ first_broken (coded edition codes.now) }
{
    if let Some(i) = limits::first_outside(codes) {
        return Some(i);
    }
    let k = joint::first_rule(edition, codes)?;
    Some(FIRST_RULE + k)
}

// Whether 147 codes are those of parameters of an edition that pass the check.
fn accepts(edition: Edition, codes: &[u64]) -> bool
    ensures { result ≡ accepted_by edition codes.now }
{
    if codes.len() != NUMBERS {
        return false;
    }
    if !limits::codes_lie(codes) {
        return false;
    }
    joint::first_rule(edition, codes).is_none()
}

// The same of an edition's number. Every call of a router asks this.
pub fn accepts_codes(edition: u64, codes: &[u64]) -> bool
    ensures { result ≡ accepted_codes edition codes.now }
{
    match Edition::try_from(edition) {
        Ok(e) => accepts(e, codes),
        Err(_) => false,
    }
}

impl Params {
    pub const D_LO: i64 = 4;

    pub const D: i64 = 6;

    pub const D_HI: i64 = 12;

    pub const D_OUT: i64 = 2;

    pub const D_SCORE: i64 = 4;

    // The ordinary parameters, of the first edition.
    pub fn ordinary() -> Params
        ensures { result ≡ ordinary_params }
    {
        let numbers = ordinary::ORDINARY;
        Params {
            numbers,
            edition: Edition::First,
        }
    }

    // The first number that is not between its limits; if there is none, 200 and the first joint rule that is broken.
    pub fn first_broken(self) -> Option<usize>
        ensures { result ≡ first_broken self }
    {
        let mut codes = [0u64; NUMBERS];
        limits::write_codes(&self.numbers, &mut codes);
        first_broken_code(self.edition, &codes)
    }
}
