//! What the printer's own lines are. A law's function does nothing: its contract is the law.
ghost use Rattle.std.specs.Prelude.{◌≡◌, ℕ, ◌<◌, ◌^◌, Bool, true, false, pos, List, ◌∷◌, ◌++◌, codes, decimal, None, Some};
ghost use Rattle.marlin_reply.specs.Kind.{kind_of, is_chatter};
ghost use Rattle.marlin_reply.specs.declared.reply.Reply.TheVariants as reply;

/// An `ok`, alone, with temperatures, with the free buffer slots, and with a line's number before them.
pub fn ok_law()
    ensures alone { kind_of (codes "ok") ≡ reply.Ok None None None None }
    ensures temps { kind_of (codes "ok T:21.30 /0.00 B:21.22 /0.00 @:0 B@:0")
        ≡ reply.Ok None None None (Some (record {
          tool = Some (record { actual = pos 21300000; target = pos 0 });
          bed = Some (record { actual = pos 21220000; target = pos 0 });
        })) }
    ensures places { (block : ℕ) → block < 2 ^ 32
        → kind_of (codes "ok P15 B" ++ decimal block) ≡ reply.Ok None (Some 15) (Some block) None }
    ensures number { (number block : ℕ) → number < 2 ^ 32 → block < 2 ^ 32
        → kind_of (codes "ok N" ++ decimal number ++ codes " P15 B" ++ decimal block)
        ≡ reply.Ok (Some number) (Some 15) (Some block) None }
{}

/// A request with a number of 32 bits is that request, and `Error:` and `start` are what they say.
pub fn request_law()
    ensures resend { (number : ℕ) → number < 2 ^ 32
        → kind_of (codes "Resend: " ++ decimal number) ≡ reply.Resend number }
    ensures error { (rest : List ℕ) → kind_of (codes "Error:" ++ rest) ≡ reply.Error }
    ensures start { kind_of (codes "start") ≡ reply.Start }
{}
