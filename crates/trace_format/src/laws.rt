ghost use Rattle.std.specs.Prelude.{◌≡◌, List};
ghost use Rattle.braid_word.specs.Words.{Letter};
ghost use Rattle.ld_term.specs.Terms.{Term};
ghost use Rattle.ld_term.specs.StrictTexts.{strict_text};
ghost use Rattle.trace_format.specs.TraceText.{terms, Trace, trace_text, term_trace_text};
ghost use Rattle.trace_format.specs.TraceLines.{IsTrace};
ghost use Rattle.trace_format.specs.declared.line.StepLine.{StepLine as Step};
ghost use Rattle.trace_format.specs.declared.verdict.Verdict.{Verdict as Decision};

/// Two different traces have different texts, and what is written of two terms by their strict texts is the
/// text of their trace.
///
/// The law is the contract; the body does nothing.
pub fn law_trace_text()
    ensures one { (s : Trace) → (t : Trace) → IsTrace s → IsTrace t → trace_text s ≡ trace_text t → s ≡ t }
    ensures terms { (t : Term) → (u : Term) → (steps : List Step) → (verdict : Decision)
        → (witness : List Letter)
        → term_trace_text
        (record {
          left = strict_text t;
          right = strict_text u;
          steps = steps;
          verdict = verdict;
          witness = witness;
        })
        ≡ trace_text (record { header = terms t u; steps = steps; verdict = verdict; witness = witness }) }
{}
