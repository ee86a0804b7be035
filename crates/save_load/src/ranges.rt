// The most of each number of a record, under the parameters of a load.
ghost use Rattle.std.specs.Prelude.{◌≡◌, ◌+◌, ◌≤◌, [], ◌∷◌, length};
ghost use Rattle.std.proofs.lemmas.List.Edits.{sets};
ghost use Rattle.records.specs.Records.{State, param_count};
ghost use Rattle.validity.specs.Valid.{max_id};
ghost use Rattle.saves.specs.Save.{row_size};
ghost use Rattle.saves.specs.Load.{most_retain, most_backoff, most_of};

use records::{TOPICS, param};

// Where the numbers of topic 0 begin among the parameters, and how many each topic has.
const TOPIC_PARAMS: usize = 19;

const PER_TOPIC: usize = 16;

// The four of the peer.
fn put_peer(most: &mut [u64])
    requires { length most.old ≡ row_size }
    ensures { most.new ≡ sets most.old 0 (max_id ∷ most_retain ∷ 2000000000 ∷ 1000000 ∷ []) }
{
    most[0] = 4294967295;
    most[1] = 86400000;
    most[2] = 2000000000;
    most[3] = 1000000;
}

// The five of a topic.
fn put_topic(most: &mut [u64], at: usize, cap2: u64, cap3: u64)
    requires { at + 5 ≤ length most.old }
    ensures { most.new
        ≡ sets most.old at (cap2 ∷ cap3 ∷ 1000000000000 ∷ 1000000 ∷ most_backoff ∷ []) }
{
    most[at] = cap2;
    most[at + 1] = cap3;
    most[at + 2] = 1000000000000;
    most[at + 3] = 1000000;
    most[at + 4] = 3600000;
}

// All of them, from the codes of the parameters.
pub fn fill_most(codes: &[u64], most: &mut [u64])
    requires { (length codes.now ≡ param_count) × (length most.old ≡ row_size) }
    ensures { (st : State) → st.codes ≡ codes.now → most.new ≡ most_of st }
{
    put_peer(most);
    for t in 0..TOPICS {
        let at = TOPIC_PARAMS + PER_TOPIC * t;
        let cap2 = varint::magnitude(codes[at + param::P2_CAP]);
        let cap3 = varint::magnitude(codes[at + param::P3_CAP]);
        put_topic(most, 4 + t * 5, cap2, cap3);
    }
}
