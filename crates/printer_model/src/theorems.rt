//! Laws of the printer and of the world, on which proofs about hosts rest. A law's function does nothing: its contract
//! is the law.
ghost use Rattle.std.specs.Prelude.{◌≡◌, ◌≢◌, ℕ, ◌<◌, ◌+◌, ◌^◌, Bool, true, false, List, Option, Some, None, Ok, Err, bytes_eq, codes, pos};
ghost use Rattle.std.specs.List.{list_all};
ghost use Rattle.byte_text.specs.Marks.{has_m110};
ghost use Rattle.marlin_frame.specs.Frame.{IsNumberedLine, begins_with_n, fails, has_checksum, n_parameter_of, line_number_of};
ghost use Rattle.marlin_reply.specs.Kind.{kind_of};
ghost use Rattle.marlin_reply.specs.declared.reply.Reply.TheVariants as reply;
ghost use Rattle.printer_model.specs.Replies.{asked_after, error_line, ok_line, resend_line, run_reply, start_line};
ghost use Rattle.printer_model.specs.declared.printer.Reason.{Reason};
ghost use Rattle.printer_model.specs.declared.printer.Reason.TheVariants as reason;
ghost use Rattle.printer_model.specs.World.{is_run};
ghost use Rattle.printer_model.specs.Printer.{IsInTurn, IsRefusal, IsSameKind, judged, plain_entry};
ghost use Rattle.printer_model.specs.World.{Grew, IsTidy, WorldData, accepted_lines, apply, is_free, moves_down, moves_printer, moves_up, world_from, world_of};
ghost use Rattle.printer_model.specs.declared.oks.Oks.{Oks};
ghost use Rattle.printer_model.specs.declared.event.WorldEvent.{WorldEvent};
ghost use Rattle.printer_model.specs.declared.event.WorldEvent.TheVariants as event;

/// What one event, or several, leave of a world.
pub fn world_law()
    ensures log { (w : WorldData) (event : WorldEvent) → is_run event ≡ false
        → (apply w event).log ≡ w.log }
    ensures log_grows { (w : WorldData) (events : List WorldEvent)
        → Grew w.log (world_from w events).log }
    ensures accepted { (w : WorldData) → accepted_lines (apply w event.Run) ≡ accepted_lines w }
    ensures printer { (w : WorldData) (event : WorldEvent) → moves_printer event ≡ false
        → (apply w event).printer ≡ w.printer }
    ensures same_kind { (w : WorldData) (events : List WorldEvent)
        → IsSameKind w.printer (world_from w events).printer }
    ensures up { (w : WorldData) (event : WorldEvent) → moves_up event ≡ false
        → (apply w event).up ≡ w.up }
    ensures down { (w : WorldData) (event : WorldEvent) → moves_down event ≡ false
        → (apply w event).down ≡ w.down }
    ensures linked { (w : WorldData) (events : List WorldEvent) → list_all is_free events ≡ true
        → (world_from w events).linked ≡ w.linked }
    ensures tidy { (slots : ℕ) (oks : Oks) (past : List WorldEvent)
        → IsTidy (world_of slots oks past) }
{}

/// What the printer makes of a line at a last number, by the first rule that the line breaks.
pub fn line_law()
    ensures plain { (last : ℕ) (line : List ℕ) → begins_with_n line ≡ false
        → judged last line ≡ Ok (plain_entry line) }
    ensures wrong_number { (last : ℕ) (line : List ℕ) → begins_with_n line ≡ true
        → line_number_of line ≢ last + 1 → has_m110 line ≡ false
        → judged last line ≡ Err reason.WrongNumber }
    ensures no_checksum { (last : ℕ) (line : List ℕ) → begins_with_n line ≡ true
        → IsInTurn last line → has_checksum line ≡ false
        → judged last line ≡ Err reason.NoChecksum }
    ensures mismatch { (last : ℕ) (line : List ℕ) → begins_with_n line ≡ true → IsInTurn last line
        → has_checksum line ≡ true → fails line ≡ true → judged last line ≡ Err reason.Mismatch }
    ensures accepted { (last n : ℕ) (text line : List ℕ) → IsNumberedLine n text line
        → IsInTurn last line
        → judged last line ≡ Ok (record {
          number = Some n;
          n_parameter = Some (n_parameter_of line);
          text = text;
        }) }
    ensures failing { (last : ℕ) (line : List ℕ) → fails line ≡ true → IsRefusal last line }
{}

/// What the printer's replies are: to a refusal, to a line that was run, and after a restart.
pub fn reply_law()
    ensures error { (why : Reason) (last : ℕ) → kind_of (error_line why last) ≡ reply.Error }
    ensures resend { (last : ℕ) → kind_of (resend_line last) ≡ reply.Resend (asked_after last) }
    ensures ok { kind_of ok_line ≡ reply.Ok None None None None }
    ensures start { kind_of start_line ≡ reply.Start }
    ensures temperatures { (numbered : Bool) (n_parameter : Option ℕ) (text : List ℕ) (free : ℕ)
        → bytes_eq text (codes "M105") ≡ true
        → kind_of (run_reply numbered n_parameter text free) ≡ reply.Ok None None None (Some (record {
          tool = Some (record { actual = pos 21300000; target = pos 0 });
          bed = Some (record { actual = pos 21220000; target = pos 0 });
        })) }
    ensures plain { (n_parameter : Option ℕ) (text : List ℕ) (free : ℕ)
        → bytes_eq text (codes "M105") ≡ false
        → kind_of (run_reply false n_parameter text free) ≡ reply.Ok None None None None }
    ensures named { (n_parameter : ℕ) (text : List ℕ) (free : ℕ) → bytes_eq text (codes "M105") ≡ false
        → n_parameter < 2 ^ 32 → free < 2 ^ 32
        → kind_of (run_reply true (Some n_parameter) text free)
        ≡ reply.Ok (Some n_parameter) (Some 15) (Some free) None }
    ensures unnamed { (text : List ℕ) (free : ℕ) → bytes_eq text (codes "M105") ≡ false
        → free < 2 ^ 32
        → kind_of (run_reply true None text free) ≡ reply.Ok None (Some 15) (Some free) None }
{}
