// The refusals of all calls.
ghost use Rattle.std.specs.Prelude.{◌≡◌};
ghost use Rattle.records.specs.Refusals.{number};

// The question that got a no, by what was found wrong. The numbers are those of the documents.
#[derive(Clone, Copy, Debug, PartialEq, Eq)]
pub enum Refusal {
    // A sheet.
    NotASheet = 1,
    SheetArity = 2,
    TooManyRules = 3,
    NotAPattern = 4,
    PatternTooDeep = 5,
    PatternArity = 6,
    LowAboveHigh = 7,
    NoSuchVariable = 8,
    NoCommonNumber = 9,
    BytesAfterSheet = 10,
    TooManyTests = 11,
    // A piece.
    NotAPiece = 12,
    PieceArity = 13,
    NotATerm = 14,
    TermTooDeep = 15,
    TermArity = 16,
    BytesAfterPiece = 17,
    // Building.
    TooManyNodes = 18,
    GraphTooLong = 19,
    // Walking.
    AritiesDiffer = 20,
    NotAGraph = 21,
    NotANode = 22,
    OutOfRange = 23,
    NotAscending = 24,
    BytesAfterGraph = 25,
    TooManyEdges = 26,
    PlaceMissing = 27,
    // A reading order.
    TableLength = 28,
    TablePlaces = 29,
    ParentBehind = 30,
    // Tidying.
    TidyTooLong = 31,
    // A span of a piece.
    SpanLowAboveHigh = 32,
    // An answer fed to a window.
    NoSuchAnswer = 36,
    // A track drawing.
    PositionsLength = 37,
    OrderTooLong = 38,
}

impl Refusal {
    // The number of the question: not that of the question behind it, nor 0.
    pub fn number(self) -> u8
        ensures { result ≡ number self }
    {
        self as u8
    }
}
