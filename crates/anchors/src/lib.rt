// What the definitions of scores, bounds, distances and decodings come to on document 01's P12 and P13, distances near the top of f32, and withdrawn
// positions: laws only.
#![tactic(auto)]
