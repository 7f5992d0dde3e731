// Every crossing, one time: RULES, "Network and contours", said of the numbers and the text that the calls for contours
// leave in lent memory. The rules stand in specs/, and in proofs/ that the calls keep them. There is no code here:
// `contour` and `wkt` have it.
#![tactic(auto)]
