// Whether the parameters of a router's table pass the check, by their magnitudes, in which they stand there: a sign is its field's, so
// that no code is made.
#![tactic(auto)]

ghost use Rattle.std.specs.Prelude.{◌≡◌, true, map, ◌+◌, ◌<◌, length, get_or};
ghost use Rattle.index.specs.Index.{every};
ghost use Rattle.varint.specs.Codes.{number_of};
ghost use Rattle.records.specs.Records.{param_count, topic_count};
ghost use Rattle.limits.specs.Limits.{general_count, of_topic, field_of, place, in_limits};
ghost use Rattle.params.specs.Joint.{rule_count, cap_rule, score_rule, rule};
ghost use Rattle.params.specs.Check.{accepted_by, accepted_codes};
ghost use Rattle.layout.specs.View.{state_of, cell_count};
ghost use Rattle.magnitudes.specs.Sizes.{least, most, Degrees, Thresholds};

use limits::{FIELDS, GENERAL, OF_TOPIC};
use params::Edition;
use records::TOPICS;
use records::param::{
    D, D_HI, D_LO, D_OUT, D_SCORE, GOSSIP_THRESHOLD, GRAYLIST_THRESHOLD, P3_CAP, P3_THRESHOLD,
    PUBLISH_THRESHOLD,
};

// The least and the greatest magnitude by field: 19 general fields, then the 16 that every topic has. Two lists, as specs/Sizes.antt.
const LEAST: [u64; FIELDS] = [
    1, 1, 1, 0, 0, 1, 1, 0, 0, 1, 1, 1, 0, 1, 1, 1, 1, 1, 0, 0, 0, 1, 0, 0, 1, 0, 0, 1, 1, 1, 0, 0,
    1, 0, 1,
];

const MOST: [u64; FIELDS] = [
    48, 48, 48, 24, 48, 3600, 3600, 86400, 1000000, 1000000000, 1000000000, 1000000000, 1000000000,
    100, 100, 256, 100, 999, 1000, 1000, 100, 3600000, 1000, 100, 999, 1000000, 100, 999, 1000000,
    1000000, 3600000, 100, 999, 100, 999,
];

fn least() -> [u64; FIELDS]
    ensures { result ≡ least }
{
    LEAST
}

fn most() -> [u64; FIELDS]
    ensures { result ≡ most }
{
    MOST
}

// Whether number i lies between these, the least and the greatest magnitude of its field.
fn lies(table: &[u64], i: usize, low: u64, high: u64) -> bool
    requires { (length table.now ≡ cell_count)
        × ((i < param_count) × ((low ≡ get_or least (field_of i) 0) × (high ≡ get_or most (field_of i) 0))) }
    ensures { result ≡ true → in_limits (map number_of (state_of table.now).codes) i ≡ true }
{
    let m = layout::load_magnitude(table, i);
    (low <= m) & (m <= high)
}

fn generals_lie(table: &[u64], low: &[u64; FIELDS], high: &[u64; FIELDS]) -> bool
    requires { (length table.now ≡ cell_count) × ((low.now ≡ least) × (high.now ≡ most)) }
    ensures { result ≡ true → every general_count (in_limits (map number_of (state_of table.now).codes)) ≡ true }
{
    for i in 0..GENERAL {
        if !lies(table, i, low[i], high[i]) {
            return false;
        }
    }
    true
}

// The j-th number of every topic.
fn field_lies(table: &[u64], j: usize, low: u64, high: u64) -> bool
    requires { (length table.now ≡ cell_count)
        × ((j < of_topic) × ((low ≡ get_or least (general_count + j) 0) × (high ≡ get_or most (general_count + j) 0))) }
    ensures { result ≡ true
        → every topic_count (λ k. in_limits (map number_of (state_of table.now).codes) (place k j)) ≡ true }
{
    for t in 0..TOPICS {
        if !lies(table, GENERAL + OF_TOPIC * t + j, low, high) {
            return false;
        }
    }
    true
}

fn fields_lie(table: &[u64], low: &[u64; FIELDS], high: &[u64; FIELDS]) -> bool
    requires { (length table.now ≡ cell_count) × ((low.now ≡ least) × (high.now ≡ most)) }
    ensures { result ≡ true
        → every of_topic (λ j. every topic_count (λ k. in_limits (map number_of (state_of table.now).codes) (place k j))) ≡ true }
{
    for j in 0..OF_TOPIC {
        if !field_lies(table, j, low[GENERAL + j], high[GENERAL + j]) {
            return false;
        }
    }
    true
}

fn numbers_lie(table: &[u64]) -> bool
    requires { length table.now ≡ cell_count }
    ensures { result ≡ true → every param_count (in_limits (map number_of (state_of table.now).codes)) ≡ true }
{
    let low = least();
    let high = most();
    if !generals_lie(table, &low, &high) {
        return false;
    }
    fields_lie(table, &low, &high)
}

// ---- the joint rules (01), by the magnitudes

// D_lo ≤ D ≤ D_hi, D_out < D_lo, 2·D_out ≤ D.
fn degrees_hold(table: &[u64]) -> bool
    requires { (length table.now ≡ cell_count)
        × (every param_count (in_limits (map number_of (state_of table.now).codes)) ≡ true) }
    ensures { result ≡ true → Degrees (state_of table.now).codes }
{
    let lo = layout::load_magnitude(table, D_LO);
    let d = layout::load_magnitude(table, D);
    let hi = layout::load_magnitude(table, D_HI);
    let out = layout::load_magnitude(table, D_OUT);
    (lo <= d) & (d <= hi) & (out < lo) & (2 * out <= d)
}

// The rule on D_score.
fn score_holds(table: &[u64], edition: Edition) -> bool
    requires { (length table.now ≡ cell_count)
        × (every param_count (in_limits (map number_of (state_of table.now).codes)) ≡ true) }
    ensures { result ≡ true → score_rule (map number_of (state_of table.now).codes) edition ≡ true }
{
    let d = layout::load_magnitude(table, D);
    let out = layout::load_magnitude(table, D_OUT);
    let score = layout::load_magnitude(table, D_SCORE);
    match edition {
        Edition::First => score + out <= d,
        Edition::Second => score <= d,
    }
}

// publish ≤ gossip, graylist < publish, all three below 0.
fn thresholds_hold(table: &[u64]) -> bool
    requires { length table.now ≡ cell_count }
    ensures { result ≡ true → Thresholds (state_of table.now).codes }
{
    let graylist = layout::load_magnitude(table, GRAYLIST_THRESHOLD);
    let gossip = layout::load_magnitude(table, GOSSIP_THRESHOLD);
    let publish = layout::load_magnitude(table, PUBLISH_THRESHOLD);
    (gossip <= publish) & (publish < graylist)
}

fn cap_holds(table: &[u64], t: usize) -> bool
    requires { (length table.now ≡ cell_count)
        × ((every param_count (in_limits (map number_of (state_of table.now).codes)) ≡ true) × (t < topic_count)) }
    ensures { result ≡ true → cap_rule (map number_of (state_of table.now).codes) t ≡ true }
{
    let cap = layout::load_magnitude(table, GENERAL + OF_TOPIC * t + P3_CAP);
    let threshold = layout::load_magnitude(table, GENERAL + OF_TOPIC * t + P3_THRESHOLD);
    threshold <= cap
}

// In every topic P3 cap is at least P3 threshold.
fn caps_hold(table: &[u64]) -> bool
    requires { (length table.now ≡ cell_count)
        × (every param_count (in_limits (map number_of (state_of table.now).codes)) ≡ true) }
    ensures { result ≡ true → every topic_count (cap_rule (map number_of (state_of table.now).codes)) ≡ true }
{
    for t in 0..TOPICS {
        if !cap_holds(table, t) {
            return false;
        }
    }
    true
}

fn rules_hold(table: &[u64], edition: Edition) -> bool
    requires { (length table.now ≡ cell_count)
        × (every param_count (in_limits (map number_of (state_of table.now).codes)) ≡ true) }
    ensures { result ≡ true → every rule_count (rule (map number_of (state_of table.now).codes) edition) ≡ true }
{
    if !degrees_hold(table) {
        return false;
    }
    if !score_holds(table, edition) {
        return false;
    }
    if !thresholds_hold(table) {
        return false;
    }
    caps_hold(table)
}

// ---- all

fn accepted_by(table: &[u64], edition: Edition) -> bool
    requires { length table.now ≡ cell_count }
    ensures { result ≡ true → accepted_by edition (state_of table.now).codes ≡ true }
{
    if !numbers_lie(table) {
        return false;
    }
    rules_hold(table, edition)
}

// Whether the parameters surely pass the check of their edition.
pub fn accepted(table: &[u64]) -> bool
    requires { length table.now ≡ cell_count }
    ensures { result ≡ true
        → accepted_codes (state_of table.now).setup.edition (state_of table.now).codes ≡ true }
{
    let setup = layout::load_setup(table);
    match Edition::try_from(setup.edition) {
        Ok(e) => accepted_by(table, e),
        Err(_) => false,
    }
}
