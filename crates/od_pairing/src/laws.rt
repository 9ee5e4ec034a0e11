//! Laws of the parts of a hop, each the contract of a function that does nothing.
ghost use Rattle.od_pairing.specs.Laws.{HasOneScanMore, HopScansLie, ScanLies};

/// The matches of a pattern in a sentence are no more than its tokens, and lie within it; so do
/// those of each part of a hop.
pub fn scans_lie()
    ensures scan { ScanLies }
    ensures hop { HopScansLie }
{}

/// A hop has one part more than it has paths.
pub fn one_scan_more()
    ensures { HasOneScanMore }
{}
