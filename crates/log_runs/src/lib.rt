// A trace that is made of a text log, run (document 02, N6 with N1 and N9): a claim alone, over the definitions of text_log and trace_run.
#![tactic(auto)]
