// What holds of lines, whoever reads them.
ghost use Rattle.std.specs.Prelude.{◌≡◌, ◌*◌, ◌+◌, ℕ, List};
ghost use Rattle.mupdate_codec.specs.declared.command.MCommand.{MCommand};
ghost use Rattle.mupdate_codec.specs.declared.command.MResponse.{MResponse};
ghost use Rattle.mupdate_codec.specs.declared.tag.Tag.{Tag};
ghost use Rattle.mupdate_codec.specs.Answers.{IsBegun};
ghost use Rattle.mupdate_codec.specs.Arguments.{exact};
ghost use Rattle.mupdate_codec.specs.Commands.{command_line, IsCommandLine, IsSpelledCommand};
ghost use Rattle.mupdate_codec.specs.Cut.{IsCut};
ghost use Rattle.mur_base.specs.declared.limits.TheConstants.{NAME_LIMIT, SHORT_NAME_LIMIT};
ghost use Rattle.mupdate_codec.specs.declared.limits.TheConstants.{TAG_MOST, STRING_LIMIT, NAME_BYTES, LOCATION_MOST};
ghost use Rattle.mupdate_codec.specs.Responses.{response_line, IsResponseLine, IsSpelledResponse};

/// No line is a proper prefix of another, and each is one command.
pub fn a_line_is_one_command()
    ensures whole { (line : List ℕ) (it : Tag × MCommand) → IsCommandLine line it → ¬ IsBegun IsCommandLine line }
    ensures one { (line : List ℕ) (it other : Tag × MCommand) → IsCommandLine line it → IsCommandLine line other → it ≡ other }
    ensures printed { (tag : Tag) (it : MCommand) → IsSpelledCommand tag it → IsCommandLine ((command_line exact).text (tag, it)) (tag, it) }
{}

/// No line is a proper prefix of another, and each is one response.
pub fn a_line_is_one_response()
    ensures whole { (line : List ℕ) (it : Tag × MResponse) → IsResponseLine line it → ¬ IsBegun IsResponseLine line }
    ensures one { (line : List ℕ) (it other : Tag × MResponse) → IsResponseLine line it → IsResponseLine line other → it ≡ other }
    ensures printed { (tag : Tag) (it : MResponse) → IsSpelledResponse tag it → IsResponseLine ((response_line exact).text (tag, it)) (tag, it) }
{}

/// Bytes are cut into lines in one way.
pub fn bytes_are_cut_in_one_way()
    ensures { (bytes : List ℕ) (lines other : List (List ℕ)) (left rest : List ℕ) → IsCut bytes lines left → IsCut bytes other rest
        → (lines ≡ other) × (left ≡ rest) }
{}

/// How long the parts of a line may be, in bytes.
pub fn the_limits_are_these()
    ensures tag { TAG_MOST ≡ 41 }
    ensures string { STRING_LIMIT ≡ 65536 }
    ensures name { NAME_BYTES ≡ NAME_LIMIT }
    ensures location { LOCATION_MOST ≡ 2 * SHORT_NAME_LIMIT + 1 }
{}
