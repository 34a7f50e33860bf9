// The refusals of documents 01 and 02, each with its number.
#![tactic(auto)]

ghost use Rattle.std.specs.Prelude.{◌≡◌};
ghost use Rattle.refusals.specs.Refusals.{refusal_number};

// Why a call is refused: the rows of the two documents' tables of refusals, in their order.
#[derive(Clone, Copy, Debug, PartialEq, Eq)]
pub enum Refusal {
    // 1: a lent buffer is shorter than needed.
    Short,
    // 2: bytes that are no 1 to 128 whole blocks, or over 3,968 records to write.
    NotBlocks,
    // 3: the check differs.
    CheckDiffers,
    // 4: a number, count, kind, order, mode, name count or unused byte is wrong.
    Malformed,
    // 5: n is not in 1 to 256.
    SizeWrong,
    // 6: over 1,024 edges.
    ManyEdges,
    // 7: an edge's end is not below n, its child is 0, or both its ends are equal.
    EdgeWrong,
    // 8: an edge stands twice.
    EdgeTwice,
    // 9: a node is not reached.
    Unreached,
    // 10: an interval is wrong, or the desk is not sound.
    StateWrong,
    // 11: the party is over 31.
    PartyWrong,
    // 12: enter by a party that is not out.
    NotOut,
    // 13: get, put, add or leave by a party that is out.
    IsOut,
    // 14: get, put or add by a party that waits.
    IsWaiting,
    // 15: the name count is not 1 to 8, or a node is not below n.
    NamesWrong,
    // 16: the node is in the reach of no name of the visit.
    NotReached,
    // 17: put in a reading visit.
    ReadsOnly,
    // 18: get or put in an adding visit, add in another.
    OtherMode,
    // 19: a cut after more steps than there are.
    FewSteps,
    // 20: a cut where somebody holds or waits.
    SomeoneIn,
}

impl Refusal {
    // The number of a refusal.
    pub fn number(self) -> u8
        ensures { result ≡ refusal_number self }
    {
        match self {
            Refusal::Short => 1,
            Refusal::NotBlocks => 2,
            Refusal::CheckDiffers => 3,
            Refusal::Malformed => 4,
            Refusal::SizeWrong => 5,
            Refusal::ManyEdges => 6,
            Refusal::EdgeWrong => 7,
            Refusal::EdgeTwice => 8,
            Refusal::Unreached => 9,
            Refusal::StateWrong => 10,
            Refusal::PartyWrong => 11,
            Refusal::NotOut => 12,
            Refusal::IsOut => 13,
            Refusal::IsWaiting => 14,
            Refusal::NamesWrong => 15,
            Refusal::NotReached => 16,
            Refusal::ReadsOnly => 17,
            Refusal::OtherMode => 18,
            Refusal::FewSteps => 19,
            Refusal::SomeoneIn => 20,
        }
    }
}
