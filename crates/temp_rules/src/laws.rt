//! What limits and greatest values mean for whole texts. A law's function does nothing: its contract is the law.
ghost use Rattle.std.specs.Prelude.{◌≡◌, ℕ, ◌<◌, List, fold, Some, None};
ghost use Rattle.temp_rules.specs.Asked.{asked_of};
ghost use Rattle.temp_rules.specs.Hot.{AllWithin, hot_of};
ghost use Rattle.temp_rules.specs.Most.{hottest, no_targets, with_text};
ghost use Rattle.temp_rules.specs.declared.heater.Heater.TheVariants.{Tool, Bed};
ghost use Rattle.temp_rules.specs.declared.limits.Limits.{Limits};
ghost use Rattle.temp_rules.specs.declared.limits.TooHot.{TooHot};

/// A text that passes asks for nothing above its limits, and one that does not names a value above the limit.
pub fn hot_law()
    ensures tool_within { (limits : Limits) (text : List ℕ) → hot_of limits text ≡ None
        → AllWithin limits.tool (asked_of Tool text) }
    ensures bed_within { (limits : Limits) (text : List ℕ) → hot_of limits text ≡ None
        → AllWithin limits.bed (asked_of Bed text) }
    ensures above { (limits : Limits) (text : List ℕ) (hot : TooHot) → hot_of limits text ≡ Some hot
        → hot.limit < hot.asked }
{}

/// After texts were seen in turn the targets are the greatest values that these ask for.
pub fn targets_law()
    ensures { (texts : List (List ℕ))
        → fold with_text no_targets texts
        ≡ record { tool = hottest Tool texts; bed = hottest Bed texts } }
{}
