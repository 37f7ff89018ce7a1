//! What every page has: its head, how it looks, and its empty tables, which its script fills from the data.

/// What stands before the data.
pub(crate) const BEFORE_DATA: &str = "\
<!DOCTYPE html>
<html lang='en'>
<head>
<meta charset='utf-8'>
<meta name='viewport' content='width=device-width, initial-scale=1'>
<meta name='color-scheme' content='light dark'>
<meta http-equiv='Content-Security-Policy' content=\"default-src 'none'; style-src 'unsafe-inline'; script-src 'unsafe-inline'\">
<title>tlcheck</title>
<style>
:root {
  --paper: #ffffff; --panel: #f3f4f6; --ink: #1a1d21; --soft: #59616b; --edge: #c9ced6; --mark: #b3261e; --link: #0b57d0;
}
@media (prefers-color-scheme: dark) {
  :root {
    --paper: #15181c; --panel: #1f242a; --ink: #e6e9ed; --soft: #a3acb7; --edge: #3d454f; --mark: #ff8a80; --link: #8ab4f8;
  }
}
* { box-sizing: border-box; }
body { margin: 0 auto; max-width: 90rem; padding: 1rem 1.5rem 3rem; background: var(--paper); color: var(--ink); font: 15px/1.45 system-ui, sans-serif; }
h1 { margin: 0; font-size: 1.5rem; }
h2 { margin: 2rem 0 0.5rem; font-size: 1.15rem; }
p { margin: 0.25rem 0; }
.soft { color: var(--soft); }
.code, table.rows td:first-child { font-family: ui-monospace, monospace; font-size: 0.92em; }
.counts { display: flex; flex-wrap: wrap; gap: 0.75rem; margin: 1rem 0 0; padding: 0; }
.counts div { padding: 0.5rem 1rem; border: 1px solid var(--edge); border-radius: 6px; background: var(--panel); }
.counts dt { color: var(--soft); font-size: 0.85em; }
.counts dd { margin: 0; font-size: 1.35rem; font-variant-numeric: tabular-nums; }
.wide { overflow-x: auto; }
table { border-collapse: collapse; width: 100%; }
caption { padding: 0.25rem 0; color: var(--soft); text-align: left; }
th, td { padding: 0.35rem 0.75rem 0.35rem 0; border-bottom: 1px solid var(--edge); text-align: left; vertical-align: top; }
thead th { color: var(--soft); font-size: 0.85em; font-weight: 600; }
tbody th { font-weight: 600; }
th.number, td.number { text-align: right; font-variant-numeric: tabular-nums; white-space: nowrap; }
table.rows td { padding-bottom: 0.6rem; }
table.rows td:nth-child(5) { min-width: 8rem; }
table.rows td:nth-child(6) { min-width: 18rem; }
table.rows ul { margin: 0; padding: 0; list-style: none; }
td.strip { width: 40%; min-width: 16rem; }
td.strip svg { display: block; width: 100%; height: 24px; }
.axis { display: flex; justify-content: space-between; }
button, input, select { font: inherit; color: var(--ink); background: var(--paper); border: 1px solid var(--edge); border-radius: 4px; padding: 0.25rem 0.5rem; }
button { cursor: pointer; }
button:disabled { color: var(--soft); cursor: default; }
button.pick { border: 0; padding: 0; background: none; color: var(--link); text-decoration: underline; }
form { display: flex; flex-wrap: wrap; gap: 0.75rem 1.25rem; align-items: end; margin: 0.5rem 0; }
label { display: grid; gap: 0.15rem; color: var(--soft); font-size: 0.85em; }
input[type=search] { min-width: 18rem; }
nav { position: sticky; top: 0; display: flex; gap: 0.75rem; padding: 0.5rem 0; background: var(--paper); }
[hidden] { display: none !important; }
svg.picture { display: block; max-width: none; }
svg text { fill: var(--ink); font: 12px ui-monospace, monospace; }
svg .lane { stroke: var(--edge); stroke-width: 2; }
svg .beat { stroke: var(--ink); stroke-width: 1.5; fill: none; }
svg .head { fill: var(--ink); }
svg .broken { stroke: var(--mark); stroke-width: 3; fill: none; }
svg .broken-head, svg text.broken-text { fill: var(--mark); }
svg text.broken-text { font-weight: bold; }
svg .why { stroke: var(--soft); stroke-width: 1.5; stroke-dasharray: 4 3; fill: none; }
svg .why-head, svg text.quiet { fill: var(--soft); }
svg .span { fill: var(--edge); }
svg .bars { fill: var(--mark); }
@media print { form, nav { display: none; } }
</style>
</head>
<body>
<header>
<h1>tlcheck: <span id='title'></span></h1>
<p id='checked' class='soft'></p>
<p id='open' class='soft'></p>
<dl id='counts' class='counts'></dl>
</header>
<noscript><p>The rows stand in this page as data, and a script of the page draws them. Without scripts, run tlcheck with --show.</p></noscript>
<main>
<section aria-labelledby='of-rules'>
<h2 id='of-rules'>Rows by rule</h2>
<div class='wide' tabindex='0' role='region' aria-labelledby='of-rules'><table id='rules'></table></div>
</section>
<section aria-labelledby='of-links'>
<h2 id='of-links'>Rows by link</h2>
<div class='wide' tabindex='0' role='region' aria-labelledby='of-links'><table id='links'></table></div>
</section>
<section aria-labelledby='of-rows'>
<h2 id='of-rows'>Rows</h2>
<form id='filter'>
<label>Text<input id='text' type='search' autocomplete='off'></label>
<label>Rule<select id='rule'></select></label>
<label>Link<select id='link'></select></label>
<label>Order<select id='order'><option value='cycle'>by cycle</option><option value='link'>by link</option></select></label>
<button id='clear' type='reset'>Show all</button>
</form>
<p id='found' role='status'></p>
<nav id='pages' aria-label='Pages of rows'><button id='before' type='button'>Previous</button><button id='after' type='button'>Next</button></nav>
<div class='wide' tabindex='0' role='region' aria-labelledby='of-rows'><table id='rows' class='rows'></table></div>
</section>
</main>
<svg id='space' width='0' height='0' aria-hidden='true'></svg>
<script id='data' type='application/json'>
";
