// The customer's demands as theorems: no code. The pages to read are in specs/, each with its proof under the same name in proofs/:
// Figures (the fifteen figures), Entries, ExactCauses and EntriesC (demand 1, of the libraries and of the C face), Jobs, EntryFormulas, Signed
// and RoundTrips (demand 2), Sessions and Demand3 (demand 3), OneOutcome, GrammarOutcome, OneOutcomeC, InPlace and InPlaceC (any arguments, and
// no second outcome), Flattened (the C face loses nothing); and of 02's changes ZeroGage (01's answers stand where nothing boils), Panel, OneWay
// and OutAndBack (round trips), Agreement, OwnFigures and TwoAndEight (places by agreement), LookUp and PrintedEntry (compressibility looked up), Transmitters
// and TransmitterFigures (smart transmitters), LongRuns and InterpolatedFigures (two forms of run records, and moving between them).
// Demand1, Judging, Demand2 and Formulas are the same demands of the meanings that the contracts cite; Endings, FlatEndings, Reasons, Groups and
// Meeting are their laws.
#![tactic(auto)]
