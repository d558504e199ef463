// What a client's bytes are cut into, as laws of the definition of frames. Limits stand here as numbers.
ghost use Rattle.std.specs.Prelude.{◌≡◌, ◌+◌, ◌<◌, ◌≤◌, ◌⊎◌, ◌++◌, ℕ, List, [], ◌∷◌, length, None, Some, true, false};
ghost use Rattle.mur_base.specs.Ascii.{crlf};
ghost use Rattle.imap_wire.specs.declared.frame.Frame.TheVariants.{Whole, NeedLiteral, TooBig, Fault};
ghost use Rattle.imap_wire.specs.declared.frame.FrameFault.TheVariants.{LineTooLong, PlusTooLong};
ghost use Rattle.imap_wire.specs.FrameLaws.{Brings, LiteralLine, IsInLine, IsLiteralLine, IsCommandFront, AnnouncesNone};
ghost use Rattle.imap_wire.specs.FrameLaws.{literal_line_text, announced_size, texts_length, literals_length, lines_bytes, literals_asked_for};
ghost use Rattle.imap_wire.specs.Frames.{begun, frames};

/// A line that announces no literal is a command (RFC 9051, 2.2.1), the first line of a connection too.
pub fn a_line_is_a_command()
    ensures first { begun [] ≡ Some [] }
    ensures line { (text : List ℕ) → IsInLine text → AnnouncesNone text → length text ≤ 8192
        → Brings (text ++ crlf) (Whole (text ++ crlf) ∷ []) (Some []) }
{}

/// Lines with literals, and the line behind the last literal, are one command; for each `{n}` the client is asked (RFC 9051, 4.3).
pub fn a_command_has_its_literals()
    ensures { (lines : List LiteralLine) (text : List ℕ) → IsCommandFront lines → IsInLine text → AnnouncesNone text
        → texts_length lines + length text ≤ 8192
        → Brings (lines_bytes lines ++ (text ++ crlf)) (literals_asked_for lines ++ Whole (lines_bytes lines ++ (text ++ crlf)) ∷ []) (Some []) }
{}

/// Before the end of a line nothing comes of it.
pub fn a_line_is_taken_whole()
    ensures { (lines : List LiteralLine) (text : List ℕ) → IsCommandFront lines → IsInLine text → texts_length lines + length text ≤ 8192
        → Brings (lines_bytes lines ++ text) (literals_asked_for lines) (Some (lines_bytes lines ++ text)) }
{}

/// A client that waits is asked for its literal as soon as the line has come that announces it (RFC 9051, 4.3).
pub fn a_literal_is_asked_for()
    ensures { (lines : List LiteralLine) (it : LiteralLine) → IsCommandFront lines → IsLiteralLine it → it.waits ≡ true
        → texts_length lines + length (literal_line_text it) ≤ 8192 → announced_size it ≤ 1048576 → literals_length lines + announced_size it ≤ 1056768
        → Brings (lines_bytes lines ++ (literal_line_text it ++ crlf)) (literals_asked_for lines ++ NeedLiteral (announced_size it) ∷ [])
        (Some (lines_bytes lines ++ (literal_line_text it ++ crlf))) }
{}

/// A literal that is too big is refused where the client waits, and the next byte begins a new command.
pub fn a_literal_is_refused()
    ensures { (lines : List LiteralLine) (it : LiteralLine) → IsCommandFront lines → IsLiteralLine it → it.waits ≡ true
        → texts_length lines + length (literal_line_text it) ≤ 8192 → (1048576 < announced_size it) ⊎ (1056768 < literals_length lines + announced_size it)
        → Brings (lines_bytes lines ++ (literal_line_text it ++ crlf)) (literals_asked_for lines ++ TooBig (lines_bytes lines ++ (literal_line_text it ++ crlf)) ∷ []) (Some []) }
{}

/// A connection ends at a literal that comes unasked and is too big, and at a line that is too long.
pub fn a_fault_ends_the_connection()
    ensures plus { (lines : List LiteralLine) (it : LiteralLine) → IsCommandFront lines → IsLiteralLine it → it.waits ≡ false
        → texts_length lines + length (literal_line_text it) ≤ 8192 → (4096 < announced_size it) ⊎ (1056768 < literals_length lines + announced_size it)
        → Brings (lines_bytes lines ++ (literal_line_text it ++ crlf)) (literals_asked_for lines ++ Fault PlusTooLong ∷ []) None }
    ensures long { (lines : List LiteralLine) (text : List ℕ) → IsCommandFront lines → IsInLine text → 8192 < texts_length lines + length text
        → Brings (lines_bytes lines ++ (text ++ crlf)) (literals_asked_for lines ++ Fault LineTooLong ∷ []) None }
    ensures no_more { (past more : List ℕ) → begun past ≡ None → (frames (past ++ more) ≡ frames past) × (begun (past ++ more) ≡ None) }
{}
