// There is one text.
ghost use Rattle.finding_summaries.specs.Determined.{HaveOneMarkdown, HaveOneRanking};
ghost use Rattle.finding_summaries.specs.Determined.{HaveOneSummary};

/// Names have one ranking, and findings have one summary and one text in Markdown.
pub fn texts_are_determined()
    ensures ranking { HaveOneRanking }
    ensures summary { HaveOneSummary }
    ensures markdown { HaveOneMarkdown }
{}
