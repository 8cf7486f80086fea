//! What the lines of `gen` are.
ghost use Rattle.std.specs.Prelude.{◌≤◌, ◌<◌, ◌^◌, ℕ, true, None, List};
ghost use Rattle.ff_value.specs.declared.input.Input.{Input};
ghost use Rattle.ff_policy.specs.Assignment.{builtin};
ghost use Rattle.ff_gen.specs.Workload.{workload};
ghost use Rattle.ff_session.specs.Claims.{IsTraceFor};
ghost use Rattle.ff_writing.specs.Generated.{IsDrawn, AreDrawn};

use ff_gen::MOST_LINES;

/// Each line that a number draws gives an input under the built-in policy, and so many lines as a
/// command asks for are a trace of exactly the inputs that they give, without a bad line.
pub fn drawn_lines_are_a_trace()
    ensures line { (number : ℕ) → number < 2 ^ 32 → (i : Input) × IsDrawn builtin.order number i }
    ensures trace { (start n : ℕ) → n ≤ MOST_LINES → (is : List Input)
        × AreDrawn builtin.order start n is × IsTraceFor builtin true (workload start n) is None }
{}
