// What holds of every report.
ghost use Rattle.report.specs.Again.{ReportIsRead, ReportCutShort};

// What is reported is read again.
pub fn report_is_read() -> u8
    ensures { ReportIsRead }
{
    0
}

// A report that is cut short is no report.
pub fn report_cut_short() -> u8
    ensures { ReportCutShort }
{
    0
}
