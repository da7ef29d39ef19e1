/// The page up to its data: its policy, its style, and what its script draws into.
pub const HEAD: &str = r#"<!doctype html>
<html lang="en">
<head>
<meta charset="utf-8">
<meta http-equiv="Content-Security-Policy" content="default-src 'none'; style-src 'sha256-ISa4mPrhgAgNwGwO8pSUGDqcIsYOtfAKyJnCOCmnUXA='; script-src 'sha256-6kOSWaN0DrdmJilb0L4B0U1nRxxOEIO6QVoStFoPJO4='; base-uri 'none'; form-action 'none'">
<meta name="viewport" content="width=device-width, initial-scale=1">
<title>Schedule - pfair</title>
<style>
:root {
  color-scheme: light dark;
  --back: #fff; --text: #222; --soft: #595959; --rule: #bbb; --grid: #e8e8e8; --band: #f2f4f7;
  --window: #456; --missed: #c00000; --fine: #00701a; --warn: #855200; --lag: #0059b3; --stopped: #dcdcdc; --unused: #8a8a8a; --chosen: #ffe38f;
}
@media screen and (prefers-color-scheme: dark) {
  :root:not(.paper) {
    --back: #17191e; --text: #ddd; --soft: #a8abb0; --rule: #555a62; --grid: #2a2d33; --band: #22252b;
    --window: #9ab; --missed: #ff7676; --fine: #5fcf6a; --warn: #e6ba60; --lag: #6cb8ff; --stopped: #3b3e45; --unused: #666; --chosen: #5a4a14;
  }
}
* { box-sizing: border-box; }
body { max-width: 1920px; margin: 0 auto; padding: 0 1rem 2rem; background: var(--back); color: var(--text); font: 14px/1.45 system-ui, sans-serif; }
h1, h2 { font-size: 1.15rem; margin: 1.2rem 0 .3rem; overflow-wrap: anywhere; }
p { margin: .15rem 0; }
#verdict { font-weight: 600; color: var(--fine); }
#verdict.warn { color: var(--warn); }
#verdict.missed { color: var(--missed); }
#facts, #keys, #view-slots { color: var(--soft); }
#tools { display: flex; flex-wrap: wrap; gap: .4rem 1rem; align-items: center; margin: .7rem 0; }
button, input { font: inherit; color: inherit; background: var(--back); border: 1px solid var(--soft); border-radius: 4px; padding: .1rem .5rem; }
::placeholder { color: var(--soft); opacity: 1; }
#slot { width: 7em; }
button { cursor: pointer; }
:focus-visible { outline: 2px solid var(--lag); outline-offset: 1px; }
#overview { display: block; width: 100%; height: 36px; margin: .2rem 0; touch-action: none; }
#view { display: flex; gap: .8rem; align-items: flex-start; }
#picture, #panel { max-height: 70vh; overflow: auto; border: 1px solid var(--rule); }
#picture { flex: 1; min-width: 0; }
#picture canvas { position: sticky; left: 0; top: 0; display: block; }
#panel { flex: none; width: 45%; max-width: 640px; padding: .2rem .5rem; font-size: 13px; }
#panel h2 { margin-top: .2rem; }
#panel td, #panel th { padding: .05rem .3rem; }
@media (max-width: 1000px) {
  #view { flex-direction: column; }
  #picture, #panel { flex: none; width: 100%; max-width: none; }
}
.list { overflow-x: auto; }
table { border-collapse: collapse; font-variant-numeric: tabular-nums; }
th, td { padding: .05rem .45rem; text-align: right; vertical-align: top; border-bottom: 1px solid var(--grid); white-space: nowrap; }
.task, .window, .answer, .reason, .kind { text-align: left; }
.answer { white-space: normal; min-width: 10em; }
th button { border: 0; padding: .1rem 0; font-weight: 600; }
[aria-sort=ascending] button::after { content: " \2191"; }
[aria-sort=descending] button::after { content: " \2193"; }
.runs td { background: var(--band); }
.late td { color: var(--missed); font-weight: 600; }
td button { border: 0; padding: 0; background: none; color: var(--lag); text-decoration: underline; }
@media print {
  #tools, #keys, .list > button, #panel:not([data-slot]) { display: none; }
  #view { display: block; }
  #picture, #panel { max-height: none; overflow: hidden; border: 0; width: auto; }
  #picture canvas { max-width: 100%; height: auto !important; }
  #plane { width: auto !important; height: auto !important; }
  .list { overflow: visible; }
  table { font-size: 10px; }
  th, td { padding: 0 .2rem; }
  tr { break-inside: avoid; }
}
</style>
</head>
<body>
<h1 id="title">Schedule</h1>
<noscript><p>This page's script draws picture and tables. Without it, see <code>pfair run</code> with <code>-f svg</code> or <code>-f stats</code>.</p></noscript>
<p id="verdict"></p>
<p id="facts"></p>
<main>
<div id="tools" role="toolbar" aria-label="What the picture shows">
<label>Tasks <input id="filter" type="search" placeholder="name, 7, 3-9" autocomplete="off"></label>
<label>Slot <input id="slot" type="number" min="0"></label>
<span><button id="zoom-out" aria-label="narrower slots">&minus;</button>
<button id="zoom-in" aria-label="wider slots">+</button>
<button id="zoom-fit">as much as fits</button></span>
<label><input id="show-windows" type="checkbox" checked> windows</label>
<label><input id="show-lag" type="checkbox" checked> lag</label>
<label><input id="show-groups" type="checkbox" checked> group deadlines</label>
<label><input id="show-late" type="checkbox"> only late tasks</label>
<span id="shown" role="status"></span>
</div>
<canvas id="overview" role="img" aria-label="How busy the slots are, and which are late. The frame is round what the picture shows."></canvas>
<p id="view-slots"></p>
<div id="view">
<div id="picture" tabindex="0" role="group" aria-label="Picture of the schedule" aria-describedby="keys"><div id="plane"><canvas role="img" aria-label="The schedule, which panel and tables tell in words."></canvas></div></div>
<aside id="panel" aria-label="The chosen slot" aria-live="polite"><h2>No slot is chosen</h2><p>Click a slot, or press an arrow key.</p></aside>
</div>
<p id="keys">Arrows: one slot, with Shift ten. Home, End: first, last. + and &minus;, or Ctrl and the wheel: width. /: search. Box: quantum, with its processor. Bracket: window. Red and thick: missed. Dashes: may run early. Triangle: group deadline. Green: joins, leaves. Grey: clock stopped, or processor out of use. Blue: lag, up where quanta are owed. Cross: event denied.</p>
<h2>Tasks</h2>
<div class="list" id="tasks" data-of="figures" data-columns="task cost period quanta migrations preemptions jobs response_min response_max missed tardiness_max lag_min lag_max"></div>
<h2>Missed windows</h2>
<div class="list" id="misses" data-of="misses" data-columns="task sub deadline ran"></div>
<h2>Denied events</h2>
<div class="list" id="denials" data-of="denials" data-columns="slot event code reason"></div>
<h2>Refused changes</h2>
<div class="list" id="refusals" data-of="refusals" data-columns="record code reason"></div>
<h2>Events</h2>
<div class="list" id="events" data-of="events" data-columns="event slot kind task cost period early by count"></div>
</main>
<script type="application/json" id="data">
"#;
