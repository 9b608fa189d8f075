// The refusals of documents 01 and 02, each with its number.
ghost use Rattle.std.specs.Prelude.{◌≡◌, [], ◌∷◌};
ghost use Rattle.rules.specs.Refusal.{◌if◌, first};
ghost use Rattle.rdp.specs.Refused.{number_of, refusal_of};

// Why a call refuses. Its number is the one that documents 01 and 02 give it; 0 is success, and no refusal's.
#[derive(Clone, Copy, Debug, PartialEq, Eq)]
pub enum Refusal {
    // A lent bank, key or map of reasons is not 4,096 bytes, a written map not 8,192, a reach map not 512, or a lane map not 32.
    Length = 1,
    // A tile field, or a side of a picture that is written or read as a file, is outside its range.
    Tile = 2,
    // Mode or lane is above 3.
    ModeOrLane = 3,
    // A load number or the source's length is outside its range.
    Load = 4,
    // The pair of format and size is not accepted.
    Pair = 5,
    // The picture buffer is shorter than 4 bytes a texel, a file's buffer than the file, or a text's than the longest text of its kind.
    Buffer = 6,
    // The trail is shorter than the count of reads.
    Trail = 7,
    // The input of the lister or of the replay ends inside a record.
    Torn = 8,
    // The kind of a replay's record is unknown. (9 was the number of a test that no input could fail, that of a pair unknown to the texel
    // step. It is not given out again.)
    Kind = 10,
    // A replay's record names bytes beyond the companion file.
    Beyond = 11,
    // A picture that is to be written as a file has a zero side.
    ZeroSide = 12,
    // A file's header breaks the description of the format, a zero side included.
    Header = 13,
    // A file has another depth, maximum or tuple type, or no tuple type.
    Tuples = 14,
    // A file has fewer texel bytes than its header calls for.
    Texels = 15,
    // More entries are stated than one split takes.
    Count = 16,
    // A split's entry buffer is not 4,117 bytes an entry, or its side buffer is not one.
    Entries = 17,
    // No number is left for a load: it is the 65,536th.
    Spent = 18,
    // A rejected load's reason is 0 or above 255.
    Reason = 19,
}

impl Refusal {
    // The number, for whatever answers or prints it.
    pub fn number(self) -> u32
        ensures { result ≡ number_of self }
    {
        self as u32
    }
}

// The refusal if its test fails.
#[tactic(auto, unfolding(rules::specs::Refusal::first))]
pub fn refuse(refusal: Refusal, fails: bool) -> Result<(), Refusal>
    ensures { refusal_of result ≡ first ((number_of refusal if fails) ∷ []) }
{
    if fails { Err(refusal) } else { Ok(()) }
}
