// The desk: who may be in which nodes. The desk, what its five steps answer, and the steps.
#![tactic(auto)]

ghost use Rattle.std.specs.Prelude.{◌≡◌, ◌<◌, ◌≤◌, ◌||◌, length, take, replicate, nat_lt};
ghost use Rattle.lists.specs.Lists.{over};
ghost use Rattle.lists.specs.Answer.{refusal};
ghost use Rattle.locks.specs.declared.Stage.TheVariants.{Holding};
ghost use Rattle.locks.specs.Lent.{lent_in, tables_short};
ghost use Rattle.desk.specs.Desks.{stage_at, fresh_desk};
ghost use Rattle.desk.specs.Steps.{grant_to, queue_last, enter_refusal, enter_step, search_after, get_step, put_step, add_step, leave_refusal, leave_step};
ghost use Rattle.desk.specs.Answers.{Enters, Gets, Puts, Adds, Leaves};
ghost use Rattle.desk.specs.Inner.{refused_with, own_at, changed_by, list_at, change_step, SizesJudged, Judged, NodeJudged, ValueJudged, left_by};

use arrivals::{Listed, PARTIES};
use locks::{Lent, Lock, Mode, Stage};
use parties::Entry;
use refusals::Refusal;
use sweeps::Swept;

// The desk: an entry for each of 32 parties, the waiting parties in arrival order at the front of the queue, and each party's count of grants.
#[derive(Clone, Copy)]
pub struct Desk {
    pub entries: [Entry; PARTIES],
    pub queue: [u8; PARTIES],
    pub waiting: usize,
    pub grants: [u32; PARTIES],
}

// What enter answers.
// Kept: an enum of three cases, the form of document 01 ("Granted with the cover, Waits, or Refused with its number").
#[derive(Clone, Copy)]
pub enum EnterAnswer {
    Granted(usize),
    Waits,
    Refused(Refusal),
}

// What get answers: no value is available to a party that waits.
// Kept: an enum of three cases, the form of document 01 ("get's answer is taken apart by let .. else").
#[derive(Clone, Copy)]
pub enum GetAnswer {
    Value(u64),
    Waiting,
    Refused(Refusal),
}

// What a step hands back: the next desk, and its answer.
#[derive(Clone, Copy)]
pub struct Step<A> {
    pub desk: Desk,
    pub answer: A,
}

// What a visit does to a value: it reads it, puts a number in its place, or adds one to it.
#[derive(Clone, Copy)]
enum Access {
    Get,
    Put(u64),
    Add(u64),
}

// What every step asks of lengths and counts.
#[tactic(auto, unfolding(lists::specs::Answer::refusal))]
fn judge_sizes(tables: &Lent<'_>, short: bool) -> Result<(), Refusal>
    ensures { SizesJudged (lent_in tables.now) short result }
{
    if locks::tables_short(tables) | short {
        return Err(Refusal::Short);
    }
    if hierarchy::size_wrong(tables.n) {
        return Err(Refusal::SizeWrong);
    }
    if hierarchy::EDGES < tables.edges.count {
        return Err(Refusal::ManyEdges);
    }
    Ok(())
}

// Whether a visit with this lock may do so to a value.
#[tactic(auto, unfolding(lists::specs::Answer::refusal))]
fn judge_mode(access: Access, l: Lock) -> Result<(), Refusal>
    ensures { refusal (own_at access (Holding l)) ≡ refused_with result }
{
    match (access, l.mode) {
        (Access::Get, Mode::Adding) => Err(Refusal::OtherMode),
        (Access::Put(_), Mode::Reading) => Err(Refusal::ReadsOnly),
        (Access::Put(_), Mode::Adding) => Err(Refusal::OtherMode),
        (Access::Add(_), Mode::Reading | Mode::Writing) => Err(Refusal::OtherMode),
        _ => Ok(()),
    }
}

// Writes the first of the places over the front of a lent list.
fn put_list(places: &[u8], count: usize, list: &mut [u8])
    requires { (count ≤ length places.now) × (count ≤ length list.old) }
    ensures { list.new ≡ over (take count places.now) list.old }
{
    list[..count].copy_from_slice(&places[..count]);
}

// Bytes of the scratch that get, put and add are lent for their search.
const SEARCH: usize = 256;

// The value after an access; a sum is modulo 2 to the 64.
fn changed(access: Access, value: u64) -> u64
    ensures { result ≡ changed_by access value }
{
    match access {
        Access::Get => value,
        Access::Put(number) => number,
        Access::Add(number) => value.wrapping_add(number),
    }
}

impl Desk {
    // A fresh desk: all parties out, nobody waiting, no grant.
    pub fn fresh() -> Desk
        ensures { result ≡ fresh_desk }
    {
        Desk {
            entries: [Entry { stage: Stage::Out }; PARTIES],
            queue: [0u8; PARTIES],
            waiting: 0,
            grants: [0u32; PARTIES],
        }
    }

    // The arrival list.
    fn list(&self) -> Listed
        ensures { result ≡ list_at self.now }
    {
        Listed {
            places: self.queue,
            count: self.waiting,
        }
    }

    // The stage of a party.
    fn stage(&self, party: usize) -> Stage
        ensures { result ≡ stage_at self.now party }
    {
        parties::stage(&self.entries, party)
    }

    // What every step looks at.
    fn judge(&self, tables: &Lent<'_>, party: usize, short: bool) -> Result<(), Refusal>
        ensures { Judged (lent_in tables.now) self.now party short result }
    {
        judge_sizes(tables, short)?;
        if hierarchy::edges_wrong(tables.n, &tables.edges) {
            return Err(Refusal::EdgeWrong);
        }
        if parties::state_wrong(tables, self.entries, self.list()) {
            return Err(Refusal::StateWrong);
        }
        if 31 < party {
            return Err(Refusal::PartyWrong);
        }
        Ok(())
    }

    // What enter looks at.
    fn judge_enter(
        &self,
        tables: &Lent<'_>,
        party: usize,
        names: &[u16],
        name_count: usize,
    ) -> Result<(), Refusal>
        ensures { enter_refusal (lent_in tables.now) self.now party names.now name_count ≡ refused_with result }
    {
        self.judge(tables, party, names.len() < name_count)?;
        if !locks::is_out(self.stage(party)) {
            return Err(Refusal::NotOut);
        }
        if locks::names_wrong(tables.n, names, name_count) {
            return Err(Refusal::NamesWrong);
        }
        Ok(())
    }

    // What get, put and add look at besides. The first n bytes of the scratch are 0, and it is left as it was.
    fn judge_node(
        &self,
        tables: &Lent<'_>,
        party: usize,
        node: usize,
        access: Access,
        scratch: &mut [u8],
    ) -> Result<(), Refusal>
        requires { (tables.now.n ≤ length scratch.old) × (take tables.now.n scratch.old ≡ replicate tables.now.n 0) }
        ensures judged { NodeJudged (lent_in tables.now) self.now party node access result }
        ensures scratch_unchanged { scratch.new ≡ scratch.old }
    {
        let stage = self.stage(party);
        let l = match stage {
            Stage::Out => return Err(Refusal::IsOut),
            Stage::Waiting(_) => return Err(Refusal::IsWaiting),
            Stage::Holding(l) => l,
        };
        if tables.n <= node {
            return Err(Refusal::NamesWrong);
        }
        if !locks::in_named(&tables.edges, node, stage, &mut scratch[..tables.n]) {
            return Err(Refusal::NotReached);
        }
        judge_mode(access, l)
    }

    // All that get, put and add look at. `few` says that the values are too few.
    fn judge_value(
        &self,
        tables: &Lent<'_>,
        party: usize,
        node: usize,
        access: Access,
        few: bool,
        scratch: &mut [u8],
    ) -> Result<(), Refusal>
        ensures judged { ValueJudged (lent_in tables.now) self.now party node access (few || nat_lt (length scratch.old) 256) result }
        ensures scratch_after { scratch.new ≡ search_after (tables_short (lent_in tables.now) || (few || nat_lt (length scratch.old) 256)) scratch.old }
    {
        let short = few | (scratch.len() < SEARCH);
        if locks::tables_short(tables) | short {
            return Err(Refusal::Short);
        }
        scratch[..SEARCH].fill(0);
        self.judge(tables, party, short)?;
        self.judge_node(tables, party, node, access, scratch)
    }

    // What leave looks at.
    fn judge_leave(&self, tables: &Lent<'_>, party: usize, list: &[u8]) -> Result<(), Refusal>
        ensures { leave_refusal (lent_in tables.now) self.now party list.now ≡ refused_with result }
    {
        self.judge(tables, party, list.len() < PARTIES)?;
        if locks::is_out(self.stage(party)) {
            return Err(Refusal::IsOut);
        }
        Ok(())
    }

    // The desk with a lock granted to a party that was out.
    fn granted(self, party: usize, l: Lock) -> Desk
        requires { party < 32 }
        ensures { result ≡ grant_to self party l }
    {
        let mut d = self;
        d.entries[party] = Entry {
            stage: Stage::Holding(l),
        };
        d.queue = self.list().tidy();
        grants::count_grant(&mut d.grants, party);
        d
    }

    // The desk with a party last in arrival order, which waits for a lock.
    fn queued(self, party: usize, l: Lock) -> Desk
        requires { (self.waiting ≤ 32) × (party < 32) }
        ensures { result ≡ queue_last self party l }
    {
        let mut d = self;
        d.entries[party] = Entry {
            stage: Stage::Waiting(l),
        };
        d.queue = self.list().with_last(party as u8);
        d.waiting += 1;
        d
    }

    // The desk as a pass over the waiters has left it; each grant counts for the party granted.
    fn after(self, s: Swept) -> Desk
        ensures { result ≡ left_by self s }
    {
        let parties = s.granted.places;
        let mut counts = self.grants;
        grants::count_grants(&mut counts, &parties, s.granted.count);
        let entries = s.entries;
        let queue = s.stay.places;
        Desk {
            entries,
            queue,
            waiting: s.stay.count,
            grants: counts,
        }
    }

    // Puts or adds: a value becomes what the access makes of it.
    fn change(
        self,
        tables: &Lent<'_>,
        party: usize,
        node: usize,
        access: Access,
        values: &mut [u64],
        scratch: &mut [u8],
    ) -> Step<Result<(), Refusal>>
        ensures { Puts result values.new scratch.new (change_step (lent_in tables.now) self party node access values.old scratch.old) }
    {
        let few = values.len() < tables.n;
        if let Err(k) = self.judge_value(tables, party, node, access, few, scratch) {
            return Step {
                desk: self,
                answer: Err(k),
            };
        }
        values[node] = changed(access, values[node]);
        Step {
            desk: self,
            answer: Ok(()),
        }
    }

    // A party asks for the nodes that it names: granted with the cover, or waiting.
    // Kept: it takes the desk and hands the next one back, as the steps below, the form of document 01 (no `&mut self`). Names stay beside their count, since refusal 1 is given
    // where they are fewer (`enter_refusal`).
    #[tactic(auto, unfolding(crate::specs::Steps::enter_step))]
    pub fn enter(
        self,
        tables: &Lent<'_>,
        party: usize,
        mode: Mode,
        names: &[u16],
        name_count: usize,
    ) -> Step<EnterAnswer>
        ensures { Enters result (enter_step (lent_in tables.now) self party mode names.now name_count) }
    {
        if let Err(k) = self.judge_enter(tables, party, names, name_count) {
            return Step {
                desk: self,
                answer: EnterAnswer::Refused(k),
            };
        }
        let l = locks::lock_called(
            tables.n as u16,
            tables.intervals,
            mode,
            &names[..name_count],
        );
        let cover = usize::from(l.cover);
        if parties::is_free(self.entries, l) {
            return Step {
                desk: self.granted(party, l),
                answer: EnterAnswer::Granted(cover),
            };
        }
        Step {
            desk: self.queued(party, l),
            answer: EnterAnswer::Waits,
        }
    }

    // A party that holds for reading or writing reads the value of a node in the reach of a name of its visit.
    #[tactic(auto, unfolding(crate::specs::Steps::get_step))]
    pub fn get(
        self,
        tables: &Lent<'_>,
        party: usize,
        node: usize,
        values: &[u64],
        scratch: &mut [u8],
    ) -> Step<GetAnswer>
        ensures { Gets result scratch.new (get_step (lent_in tables.now) self party node values.now scratch.old) }
    {
        let few = values.len() < tables.n;
        let answer = match self.judge_value(tables, party, node, Access::Get, few, scratch) {
            Ok(()) => GetAnswer::Value(values[node]),
            Err(Refusal::IsWaiting) => GetAnswer::Waiting,
            Err(k) => GetAnswer::Refused(k),
        };
        Step { desk: self, answer }
    }

    // A party that holds for writing replaces the value of a node in the reach of a name of its visit.
    #[tactic(auto, unfolding(crate::specs::Steps::put_step))]
    pub fn put(
        self,
        tables: &Lent<'_>,
        party: usize,
        node: usize,
        value: u64,
        values: &mut [u64],
        scratch: &mut [u8],
    ) -> Step<Result<(), Refusal>>
        ensures { Puts result values.new scratch.new (put_step (lent_in tables.now) self party node value values.old scratch.old) }
    {
        self.change(tables, party, node, Access::Put(value), values, scratch)
    }

    // A party that holds for adding adds to the value of a node in the reach of a name of its visit, modulo 2 to the 64.
    #[tactic(auto, unfolding(crate::specs::Steps::add_step))]
    pub fn add(
        self,
        tables: &Lent<'_>,
        party: usize,
        node: usize,
        number: u64,
        values: &mut [u64],
        scratch: &mut [u8],
    ) -> Step<Result<(), Refusal>>
        ensures { Adds result values.new scratch.new (add_step (lent_in tables.now) self party node number values.old scratch.old) }
    {
        self.change(tables, party, node, Access::Add(number), values, scratch)
    }

    // A party gives up its hold or its call; waiters are then granted in arrival order, and listed.
    #[tactic(auto, unfolding(crate::specs::Steps::leave_step))]
    pub fn leave(
        self,
        tables: &Lent<'_>,
        party: usize,
        list: &mut [u8],
    ) -> Step<Result<usize, Refusal>>
        ensures { Leaves result list.new (leave_step (lent_in tables.now) self party list.old) }
    {
        if let Err(k) = self.judge_leave(tables, party, list) {
            return Step {
                desk: self,
                answer: Err(k),
            };
        }
        let swept = sweeps::leaving(self.entries, self.list(), party);
        put_list(&swept.granted.places, swept.granted.count, list);
        Step {
            desk: self.after(swept),
            answer: Ok(swept.granted.count),
        }
    }
}
