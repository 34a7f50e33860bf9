// Arrival lists: parties at the first places, and how many. No public function asks anything of what it is given.
#![tactic(auto)]

ghost use Rattle.std.specs.Prelude.{◌≡◌, not, ◌∷◌, [], ◌++◌, eqb, ltb};
ghost use Rattle.lists.specs.Lists.{all_below, any_below, keep};
ghost use Rattle.arrivals.specs.Arrivals.{listed_in, list_of, queue_places, nobody, pushed, Lists};

// A desk has 32 parties, so a list has 32 places.
pub const PARTIES: usize = 32;

// The party at a place of an arrival list; 0 past its places.
// Kept: a slice with a count beside it, here and in the three tests below; what they promise holds of any slice and any count, and so for a `Listed` too.
pub fn party_at(queue: &[u8], i: usize) -> usize
    ensures { result ≡ listed_in queue.now i }
{
    usize::from(queue.get(i).copied().unwrap_or(0))
}

// Whether each of the first places of an arrival list has a party from 0 to 31.
pub fn all_parties(queue: &[u8], waiting: usize) -> bool
    ensures { result ≡ all_below waiting (λ i. ltb (listed_in queue.now i) 32) }
{
    (0..waiting).all(|i| party_at(queue, i) < PARTIES)
}

// Whether no earlier place of an arrival list has the party of this one.
fn lists_first(queue: &[u8], i: usize) -> bool
    ensures { result ≡ all_below i (λ j. not (eqb (listed_in queue.now i) (listed_in queue.now j))) }
{
    let party = party_at(queue, i);
    (0..i).all(|j| party != party_at(queue, j))
}

// Whether no two of the first places of an arrival list have the same party.
pub fn lists_once(queue: &[u8], waiting: usize) -> bool
    ensures { result ≡ all_below waiting (λ i. all_below i (λ j. not (eqb (listed_in queue.now i) (listed_in queue.now j)))) }
{
    (0..waiting).all(|i| lists_first(queue, i))
}

// Whether one of the first places of an arrival list has the party.
pub fn is_listed(queue: &[u8], waiting: usize, party: usize) -> bool
    ensures { result ≡ any_below waiting (λ i. eqb (listed_in queue.now i) party) }
{
    (0..waiting).any(|i| party_at(queue, i) == party)
}

// An arrival list: parties at the first places, and their count.
// Kept: an array with a count beside it, document 01's form of the arrival list; there is no heap.
#[derive(Clone, Copy)]
pub struct Listed {
    pub places: [u8; PARTIES],
    pub count: usize,
}

impl Listed {
    // A list of nobody.
    pub fn none() -> Listed
        ensures { result ≡ nobody }
    {
        Listed {
            places: [0; PARTIES],
            count: 0,
        }
    }

    // A party goes last; where all places are taken nothing changes.
    pub fn push(&mut self, party: u8)
        ensures { self.new ≡ pushed self.old party }
    {
        if self.count < PARTIES {
            self.places[self.count] = party;
            self.count += 1;
        }
    }

    // The places, with zeros behind the list.
    pub fn tidy(&self) -> [u8; PARTIES]
        ensures { result ≡ queue_places (list_of self.now) }
    {
        let end = self.count.min(PARTIES);
        let mut places = [0; PARTIES];
        places[..end].copy_from_slice(&self.places[..end]);
        places
    }

    // The places with a party last, and zeros behind the list.
    pub fn with_last(&self, party: u8) -> [u8; PARTIES]
        ensures { result ≡ queue_places (list_of self.now ++ (party ∷ [])) }
    {
        let mut longer = Listed {
            places: self.tidy(),
            count: self.count,
        };
        longer.push(party);
        longer.places
    }

    // The list without a party.
    pub fn without(&self, party: usize) -> Listed
        ensures { Lists result (keep (λ other. not (eqb other party)) (list_of self.now)) }
    {
        let mut rest = Listed::none();
        for &other in &self.places[..self.count.min(PARTIES)] {
            if usize::from(other) != party {
                rest.push(other);
            }
        }
        rest
    }
}
