// What the lists have on a stretch of points on which nothing changes: sixteen places, each with a value where its list is present.

#![tactic(auto)]
