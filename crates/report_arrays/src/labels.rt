// The labels that a report names in the list of all labels.
ghost use Rattle.std.specs.Prelude.{◌≡◌};
ghost use Rattle.report_arrays.specs.Labels.{has_labels, labels_of};

use crate::shapes::{Label, Report};

/// The labels of a report; none if they are outside the list.
pub fn report_labels<'a>(labels: &'a [Label], report: &Report) -> &'a [Label]
    ensures { result.now ≡ labels_of labels.now report.now }
{
    if has_labels(labels.len(), report) {
        &labels[report.first_label..report.first_label + report.labels]
    } else {
        &[]
    }
}

/// Whether the report's labels are within a list of this length.
pub(crate) fn has_labels(labels: usize, report: &Report) -> bool
    ensures { result ≡ has_labels labels report.now }
{
    report.first_label <= labels && report.labels <= labels - report.first_label
}
