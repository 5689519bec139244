//! Laws of numbered lines, on which proofs about senders and printers rest. A law's function does nothing: its
//! contract is the law.
ghost use Rattle.std.specs.Prelude.{◌≡◌, ℕ, ◌<◌, ◌≤◌, ◌^◌, true, false, List, length, codes};
ghost use Rattle.std.specs.List.{All};
ghost use Rattle.byte_text.specs.Marks.{has_byte, has_m110};
ghost use Rattle.byte_text.specs.Sendable.{IsSendable};
ghost use Rattle.byte_text.specs.declared.texts.TheConstants.{MOST_LINE_BYTES};
ghost use Rattle.marlin_frame.specs.declared.read.Read.{Read};
ghost use Rattle.marlin_frame.specs.declared.written.TheConstants.{LAST_NUMBER};
ghost use Rattle.marlin_frame.specs.Frame.{frame_of, begins_with_n, fails, n_parameter_of, text_of, IsNumberedLine};
ghost use Rattle.marlin_frame.specs.Numbering.{hello_number, hello_text, hello_frame};
ghost use Rattle.marlin_frame.specs.Reading.{IsReading, IsNumbered};

/// What is on the line of a sendable command: the command under its number, and nothing else.
pub fn frame_law()
    ensures reads_back { (n : ℕ) (text : List ℕ) → n ≤ LAST_NUMBER → IsSendable text
        → All (λ b. b < 2 ^ 8) text → IsNumberedLine n text (frame_of n text) }
    ensures read_as { (n : ℕ) (text : List ℕ) (reading : Read) → n ≤ LAST_NUMBER → IsSendable text
        → All (λ b. b < 2 ^ 8) text → IsReading reading (frame_of n text)
        → IsNumbered n text reading }
    ensures n_parameter { (n : ℕ) (text : List ℕ) → n ≤ LAST_NUMBER → n_parameter_of (frame_of n text) ≡ n }
    ensures no_m110 { (n : ℕ) (text : List ℕ) → n ≤ LAST_NUMBER → IsSendable text
        → All (λ b. b < 2 ^ 8) text → has_m110 (frame_of n text) ≡ false }
    ensures no_line_feed { (n : ℕ) (text : List ℕ) → n ≤ LAST_NUMBER → IsSendable text
        → All (λ b. b < 2 ^ 8) text → has_byte 10 (frame_of n text) ≡ false }
    ensures at_most_95 { (n : ℕ) (text : List ℕ) → n ≤ LAST_NUMBER → IsSendable text
        → All (λ b. b < 2 ^ 8) text → length (frame_of n text) ≤ MOST_LINE_BYTES }
{}

/// The hello, with which a session begins: a whole line with `M110`, which sets the printer's number to the hello's.
pub fn hello_law()
    ensures bytes { hello_frame ≡ codes "N0 M110 N1*124" }
    ensures reads_back { IsNumberedLine hello_number hello_text hello_frame }
    ensures n_parameter { n_parameter_of hello_frame ≡ 0 }
    ensures sets_number { has_m110 hello_frame ≡ true }
{}

/// A line that fails is numbered, and a command is no longer than its line.
pub fn line_law()
    ensures failing { (line : List ℕ) → fails line ≡ true → begins_with_n line ≡ true }
    ensures command { (line : List ℕ) → length (text_of line) ≤ length line }
{}
