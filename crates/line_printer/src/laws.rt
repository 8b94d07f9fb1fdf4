//! Laws of what lines report. These functions do nothing: their contracts are the laws.

ghost use Rattle.line_printer.specs.Reported.{ALineReportsOnce, OkReports, ListeningReports, UnlistenedReports, SnapshotReports, ResultReports, RejectedReports};

/// A line reports at most one number in one member. The answers of a write, of a listen and of an unlisten, a snapshot, and
/// what became of a batch, report the commit that they name.
pub fn a_line_reports_once()
    ensures once { ALineReportsOnce }
    ensures ok { OkReports }
    ensures listening { ListeningReports }
    ensures unlistened { UnlistenedReports }
    ensures snapshot { SnapshotReports }
    ensures acknowledged { ResultReports }
    ensures rejected { RejectedReports }
{}
