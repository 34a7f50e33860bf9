// The counts of grants, one for each party, and their sum. No public function asks anything of what it is given.
#![tactic(auto)]

ghost use Rattle.std.specs.Prelude.{◌≡◌, take};
ghost use Rattle.lists.specs.Lists.{sum};
ghost use Rattle.grants.specs.Grants.{count_grant, count_grants};

use arrivals::PARTIES;

// Counts one grant more of a party, up to the largest number; a party past the counts changes nothing.
pub fn count_grant(grants: &mut [u32], party: usize)
    ensures { grants.new ≡ count_grant grants.old party }
{
    if party < grants.len() {
        grants[party] = grants[party].saturating_add(1);
    }
}

// Counts one grant more of each of the first parties of a list.
pub fn count_grants(grants: &mut [u32], parties: &[u8], count: usize)
    ensures { grants.new ≡ count_grants grants.old (take count parties.now) }
{
    for &party in &parties[..count.min(parties.len())] {
        count_grant(grants, usize::from(party));
    }
}

// The sum of the counts of all parties.
pub fn all_grants(grants: [u32; PARTIES]) -> u64
    ensures { result ≡ sum grants }
{
    grants.iter().map(|count| u64::from(*count)).sum()
}
