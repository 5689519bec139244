//! What holds of every file and of every line, for the crates above.
ghost use Rattle.std.specs.Prelude.{◌≡◌, ℕ, ◌≤◌, List, [], ◌∷◌, length, Ok, IfOk, false};
ghost use Rattle.std.specs.List.Sorted.{IsStrictlyIncreasing};
ghost use Rattle.byte_text.specs.Sendable.{IsSendable};
ghost use Rattle.gcode_lines.specs.Text.{command_text, is_skipped, is_too_long, has_control};
ghost use Rattle.gcode_lines.specs.Job.{most_bytes, texts_of, numbers_of, AllSendable};
ghost use Rattle.gcode_lines.specs.Commands.{job_of};
ghost use Rattle.gcode_lines.specs.Single.{single_of, single_job};

/// The text of a line's command may be sent if it is neither skipped nor refused.
pub fn line_law()
    ensures { (line : List ℕ) → is_skipped (command_text line) ≡ false
        → is_too_long (command_text line) ≡ false → has_control (command_text line) ≡ false
        → IsSendable (command_text line) }
{}

/// The commands of a file may be sent, and each is in a later line than the one before.
pub fn job_law()
    ensures sendable { (bytes : List ℕ) → IfOk (job_of bytes) (λ job. AllSendable (texts_of job)) }
    ensures rising { (bytes : List ℕ)
        → IfOk (job_of bytes) (λ job. IsStrictlyIncreasing (numbers_of job)) }
{}

/// The one command of a line is the one command of a file that is this line.
pub fn single_law()
    ensures { (line text : List ℕ) → length line ≤ most_bytes → single_of line ≡ Ok text
        → job_of line ≡ Ok (single_job line text) }
{}
